// Which fields of two frames' values differ: docs/RULES.md, "L14. Two recordings of one take". What a field says is compared, floats by
// their bits, so that nothing and infinity are themselves, +0.0 and -0.0 differ, and one comparison serves every kind.
#![tactic(auto)]

ghost use Rattle.std.specs.Prelude.{◌≡◌};
ghost use Rattle.frame_differences.specs.Said.{of_single, of_double, of_whole, of_distance, of_tStop, of_tilt_roll, of_factors, said_of};
ghost use Rattle.frame_differences.specs.Mask.{mask_of};

use frame_values::{Angles, Colours, Distance, Frame, TStop};

// What a field says that isn't nothing, floats by their bits.
#[derive(Clone, Copy, Debug, PartialEq, Eq)]
pub enum Said {
    Single(u32),
    Double(u64),
    Whole(u64),
    // The distance that is infinity.
    Infinity,
    // A T-stop's number on the linear scale.
    Linear(u32),
    // Tilt and roll.
    Angles(u32, u32),
    // The factors on red, green and blue.
    Factors(u64, u64, u64),
}

fn of_single(v: Option<f32>) -> Option<Said>
    ensures { result ≡ of_single v }
{
    Some(Said::Single(floats::f32_bits(v?)))
}

// Not one generic function with `of_single`: it would take the bits' function and the kind, which is all that each line says.
fn of_double(v: Option<f64>) -> Option<Said>
    ensures { result ≡ of_double v }
{
    Some(Said::Double(floats::f64_bits(v?)))
}

fn of_whole(v: Option<u64>) -> Option<Said>
    ensures { result ≡ of_whole v }
{
    Some(Said::Whole(v?))
}

// Infinity is a value of its own.
fn of_distance(v: Option<Distance>) -> Option<Said>
    ensures { result ≡ of_distance v }
{
    match v? {
        Distance::Metres(x) => Some(Said::Single(floats::f32_bits(x))),
        Distance::Infinity => Some(Said::Infinity),
    }
}

// A figure and a number on the linear scale are never the same.
fn of_t_stop(v: Option<TStop>) -> Option<Said>
    ensures { result ≡ of_tStop v }
{
    match v? {
        TStop::Is(x) => Some(Said::Single(floats::f32_bits(x))),
        TStop::Linear(n) => Some(Said::Linear(n)),
    }
}

fn of_tilt_roll(v: Option<Angles>) -> Option<Said>
    ensures { result ≡ of_tilt_roll v }
{
    let a = v?;
    Some(Said::Angles(floats::f32_bits(a.tilt), floats::f32_bits(a.roll)))
}

fn of_factors(v: Option<Colours>) -> Option<Said>
    ensures { result ≡ of_factors v }
{
    let k = v?;
    Some(Said::Factors(
        floats::f64_bits(k.red),
        floats::f64_bits(k.green),
        floats::f64_bits(k.blue),
    ))
}

// What each of the 19 fields says, in the order of the header.
pub fn row(f: Frame) -> [Option<Said>; 19]
    ensures { result ≡ said_of f }
{
    let e = f.encoders;
    [
        of_single(f.focal_length),
        of_distance(f.focus_distance),
        of_t_stop(f.t_stop),
        of_double(f.exposure_time),
        of_single(f.shutter_angle),
        of_tilt_roll(f.tilt_roll),
        of_whole(f.exposure_index.map(u64::from)),
        of_whole(f.white_balance.map(u64::from)),
        of_double(f.nd_density),
        of_double(f.effective_focal_length),
        of_factors(f.white_balance_factors),
        of_whole(e.focus_lds),
        of_whole(e.focus_motor),
        of_whole(e.zoom_lds),
        of_whole(e.zoom_motor),
        of_whole(e.iris_lds),
        of_whole(e.iris_motor),
        of_double(f.tint),
        of_double(f.sensor_rate),
    ]
}

// The fields in which two frames' values differ: bit k stands for field k of the header's 19.
pub fn fields(f: Frame, g: Frame) -> u32
    ensures { result ≡ mask_of (said_of f) (said_of g) }
{
    let a = row(f);
    let b = row(g);
    let mut mask = 0;
    for k in (0..19).rev() {
        mask = mask * 2 + u32::from(a[k] != b[k]);
    }
    mask
}
