// The dynamic metadata of an ALEXA Mini's or Mini LF's frame, 256 bytes big-endian, as a frame's values: docs/RULES.md,
// "Frame values". Fields, offsets, sentinels and codes are those of `Frame::of_dynamic`. Thousandths are rounded to an f32
// and then divided in f32; exposure time and effective focal length are divided in f64.
#![tactic(auto)]

ghost use Rattle.std.specs.Prelude.{◌≡◌};
ghost use Rattle.arri_mini.specs.Dynamic.{is_set, is_known, version_of, single_over_thousand, shutter_of, angle_of, t_stop_of, distance_of, factors_of, encoder_at, encoders_of, dynamic_of};

use frame_values::{
    Colours, Distance, Encoders, Frame, TStop, double_thousandths, float_of, positive,
    single_thousandths,
};
use parts::four_at;

// A field without a value has all bits set.
const UNSET: u32 = 0xffff_ffff;

// Whether a field has a value.
fn is_set(v: u32) -> bool
    ensures { result ≡ is_set v }
{
    v != UNSET
}

// Whether a field has a value that is known: 0 is not.
fn is_known(v: u32) -> bool
    ensures { result ≡ is_known v }
{
    is_set(v) & (0 < v)
}

// The metadata's version, which the cameras write in the upper half or as it is.
fn version_of(v: u32) -> u32
    ensures { result ≡ version_of v }
{
    if v == UNSET {
        return 0;
    }
    if 0x10000 <= v { v / 0x10000 } else { v }
}

// A float over 1000.
fn single_over_thousand(x: Option<f32>) -> Option<f32>
    ensures { result ≡ single_over_thousand x }
{
    Some(floats::over_thousand_f32(x?))
}

// The shutter angle, a float before version 3.
fn shutter_of(version: u32, v: u32) -> Option<f32>
    ensures { result ≡ shutter_of version v }
{
    if version < 3 {
        single_over_thousand(float_of(v))
    } else {
        single_thousandths(is_set(v), v)
    }
}

// An angle in tenths of a degree.
fn angle_of(v: u32) -> Option<f32>
    ensures { result ≡ angle_of v }
{
    if is_set(v) {
        Some(floats::low_tenths(v))
    } else {
        None
    }
}

// The T-stop by its figure.
fn t_stop_of(x: Option<f32>) -> Option<TStop>
    ensures { result ≡ t_stop_of x }
{
    Some(TStop::Is(x?))
}

// The focus distance, where `lens` says whether the lens has data.
fn distance_of(lens: bool, v: u32) -> Option<Distance>
    ensures { result ≡ distance_of lens v }
{
    if v == 0 {
        return None;
    }
    if v != UNSET {
        return Some(Distance::Metres(floats::thousandths_f32(v)));
    }
    if lens { Some(Distance::Infinity) } else { None }
}

// The white balance factors by those on red and blue.
fn factors_of(red: Option<f32>, blue: Option<f32>) -> Option<Colours>
    ensures { result ≡ factors_of red blue }
{
    Some(Colours {
        red: floats::widen(red?),
        green: 1.0,
        blue: floats::widen(blue?),
    })
}

// The encoder's value at a place.
fn encoder_at(d: &[u8], at: usize) -> Option<u64>
    ensures { result ≡ encoder_at d.now at }
{
    let v = u64::from(parts::two_at(d, at));
    if v == 0xffff {
        return None;
    }
    Some(v)
}

// The lens encoders, in this camera's order: focus, zoom, iris.
fn encoders_of(d: &[u8]) -> Encoders
    ensures { result ≡ encoders_of d.now }
{
    Encoders {
        focus_lds: encoder_at(d, 0xb0),
        focus_motor: encoder_at(d, 0xb2),
        zoom_lds: encoder_at(d, 0xb4),
        zoom_motor: encoder_at(d, 0xb6),
        iris_lds: encoder_at(d, 0xb8),
        iris_motor: encoder_at(d, 0xba),
    }
}

// The values of a frame by its 256 bytes; bytes that are missing are no part of their numbers.
pub fn of_dynamic(d: &[u8]) -> Frame
    ensures { result ≡ dynamic_of d.now }
{
    let focal = four_at(d, 0xa8);
    let stop = four_at(d, 0xac);
    let has_focal = is_known(focal);
    let has_stop = positive(stop);
    let exposure = four_at(d, 0x50);
    let effective = four_at(d, 0xc0);
    Frame {
        focal_length: single_thousandths(has_focal, focal),
        focus_distance: distance_of(has_focal | has_stop, four_at(d, 0xa4)),
        t_stop: t_stop_of(single_thousandths(has_stop, stop)),
        exposure_time: double_thousandths(is_set(exposure), exposure),
        shutter_angle: shutter_of(version_of(four_at(d, 0xfc)), four_at(d, 0x54)),
        tilt_roll: frame_values::tilt_roll_of(
            angle_of(four_at(d, 0xe0)),
            angle_of(four_at(d, 0xe4)),
        ),
        exposure_index: None,
        white_balance: None,
        nd_density: None,
        effective_focal_length: double_thousandths(is_known(effective), effective),
        white_balance_factors: factors_of(float_of(four_at(d, 0xe8)), float_of(four_at(d, 0xec))),
        encoders: encoders_of(d),
        tint: None,
        sensor_rate: None,
    }
}
