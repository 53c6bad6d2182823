// The values of an ALEXA 35's frame, gathered item by item, and the frame that they make: docs/RULES.md, "Frame values". A later
// item without a usable value erases tilt, roll, both distances, T-stop, focal length, exposure time, exposure index, white
// balance and ND; it doesn't erase tint, sensor rate, effective focal length or encoders.
#![tactic(auto)]

ghost use Rattle.std.specs.Prelude.{◌≡◌, Some};
ghost use Rattle.arri_alexa35_values.specs.Said.{said};
ghost use Rattle.arri_alexa35_values.specs.Values.{orientation_on, lens_on, encoders_on, capture_on, values_on, none, frame_of};

use arri_alexa35_items::{
    density_of, distance_in, effective_in, exposure_in, float_in, focal_length_in, low_in, rate_in,
    t_stop_in, tint_of, whole_in,
};
use frame_values::{Distance, Encoders, Frame, TStop};

// The camera's position and orientation, set 0c.
#[derive(Clone, Copy, Debug, PartialEq)]
pub struct Orientation {
    pub tilt: Option<f32>,
    pub roll: Option<f32>,
}

// The lens's configuration, set 0d, but for the encoders.
#[derive(Clone, Copy, Debug, PartialEq)]
pub struct Lens {
    pub metric: Option<Distance>,
    pub imperial: Option<Distance>,
    pub t_stop: Option<TStop>,
    pub focal_length: Option<f32>,
    pub effective: Option<f64>,
}

// The frame's capture, set 0e.
#[derive(Clone, Copy, Debug, PartialEq)]
pub struct Capture {
    pub exposure_time: Option<f64>,
    pub exposure_index: Option<u32>,
    pub white_balance: Option<u32>,
    pub tint: Option<f64>,
    pub sensor_rate: Option<f64>,
    pub nd_density: Option<f64>,
}

// The values so far.
#[derive(Clone, Copy, Debug, PartialEq)]
pub struct Values {
    pub orientation: Orientation,
    pub lens: Lens,
    pub encoders: Encoders,
    pub capture: Capture,
}

// What an item of the number and the value leaves of the orientation.
#[tactic(auto, unfolding(crate::specs::Values::orientation_on, crate::specs::Said::erases))]
fn orientation_on(mut k: Orientation, n: u64, v: &[u8]) -> Orientation
    ensures { result ≡ orientation_on k (said (Some n) v.now) }
{
    match n {
        0x0c03 => k.tilt = float_in(v),
        0x0c04 => k.roll = float_in(v),
        _ => {}
    }
    k
}

// What it leaves of the lens's configuration.
#[tactic(auto, unfolding(crate::specs::Values::lens_on, crate::specs::Said::erases, crate::specs::Said::keeps))]
fn lens_on(mut k: Lens, n: u64, v: &[u8]) -> Lens
    ensures { result ≡ lens_on k (said (Some n) v.now) }
{
    match n {
        0x0d01 => k.metric = distance_in(false, v),
        0x0d02 => k.imperial = distance_in(true, v),
        0x0d03 => k.t_stop = t_stop_in(v),
        0x0d05 => k.focal_length = focal_length_in(v),
        0x0d06 => k.effective = effective_in(v).or(k.effective),
        _ => {}
    }
    k
}

// What it leaves of the encoders, in this camera's order: focus, iris, zoom.
#[tactic(auto, unfolding(crate::specs::Values::encoders_on, crate::specs::Said::keeps))]
fn encoders_on(mut k: Encoders, n: u64, v: &[u8]) -> Encoders
    ensures { result ≡ encoders_on k (said (Some n) v.now) }
{
    match n {
        0x0d07 => k.focus_lds = whole_in(v).or(k.focus_lds),
        0x0d08 => k.focus_motor = whole_in(v).or(k.focus_motor),
        0x0d09 => k.iris_lds = whole_in(v).or(k.iris_lds),
        0x0d0a => k.iris_motor = whole_in(v).or(k.iris_motor),
        0x0d0b => k.zoom_lds = whole_in(v).or(k.zoom_lds),
        0x0d0c => k.zoom_motor = whole_in(v).or(k.zoom_motor),
        _ => {}
    }
    k
}

// What it leaves of the frame's capture.
#[tactic(auto, unfolding(crate::specs::Values::capture_on, crate::specs::Said::erases, crate::specs::Said::keeps))]
fn capture_on(mut k: Capture, n: u64, v: &[u8]) -> Capture
    ensures { result ≡ capture_on k (said (Some n) v.now) }
{
    match n {
        0x0e01 => k.exposure_time = exposure_in(v),
        0x0e03 => k.exposure_index = low_in(v),
        0x0e05 => k.white_balance = low_in(v),
        0x0e06 => k.tint = tint_of(float_in(v)).or(k.tint),
        0x0e07 => k.sensor_rate = rate_in(v).or(k.sensor_rate),
        0x0e08 => k.nd_density = density_of(float_in(v)),
        _ => {}
    }
    k
}

// What it leaves of the values.
#[tactic(auto, unfolding(crate::specs::Values::values_on))]
pub fn values_on(k: Values, n: u64, v: &[u8]) -> Values
    ensures { result ≡ values_on k (said (Some n) v.now) }
{
    Values {
        orientation: orientation_on(k.orientation, n, v),
        lens: lens_on(k.lens, n, v),
        encoders: encoders_on(k.encoders, n, v),
        capture: capture_on(k.capture, n, v),
    }
}

// The values before the first item.
#[tactic(auto, unfolding(crate::specs::Values::none))]
pub fn none() -> Values
    ensures { result ≡ none }
{
    Values {
        orientation: Orientation {
            tilt: None,
            roll: None,
        },
        lens: Lens {
            metric: None,
            imperial: None,
            t_stop: None,
            focal_length: None,
            effective: None,
        },
        encoders: Encoders {
            focus_lds: None,
            focus_motor: None,
            zoom_lds: None,
            zoom_motor: None,
            iris_lds: None,
            iris_motor: None,
        },
        capture: Capture {
            exposure_time: None,
            exposure_index: None,
            white_balance: None,
            tint: None,
            sensor_rate: None,
            nd_density: None,
        },
    }
}

// The frame that the values make: the metric distance, else the imperial one; tilt and roll as a pair or not at all.
#[tactic(auto, unfolding(crate::specs::Values::frame_of))]
pub fn frame_of(k: Values) -> Frame
    ensures { result ≡ frame_of k }
{
    let lens = k.lens;
    let capture = k.capture;
    Frame {
        focal_length: lens.focal_length,
        focus_distance: lens.metric.or(lens.imperial),
        t_stop: lens.t_stop,
        exposure_time: capture.exposure_time,
        shutter_angle: None,
        tilt_roll: frame_values::tilt_roll_of(k.orientation.tilt, k.orientation.roll),
        exposure_index: capture.exposure_index,
        white_balance: capture.white_balance,
        nd_density: capture.nd_density,
        effective_focal_length: lens.effective,
        white_balance_factors: None,
        encoders: k.encoders,
        tint: capture.tint,
        sensor_rate: capture.sensor_rate,
    }
}
