// One record holds all values of a frame: docs/RULES.md, "Frame values". ALEXA Mini's (`arri_mini`) and ALEXA 35's
// (`arri_alexa35`) metadata fill the same one, each what it has. What the two share is here: the record, and the kinds of
// number that both have.
#![tactic(auto)]

ghost use Rattle.std.specs.Prelude.{◌≡◌};
ghost use Rattle.frame_values.specs.Values.{float_of, positive, single_thousandths, double_thousandths, tilt_roll_of};

// A distance: infinity or a figure in metres.
#[derive(Clone, Copy, Debug, PartialEq)]
pub enum Distance {
    Metres(f32),
    Infinity,
}

// The T-stop: the figure itself, as the ALEXA Mini has it, or the number on the linear scale that the ALEXA 35 has, of
// which the host makes the figure.
#[derive(Clone, Copy, Debug, PartialEq)]
pub enum TStop {
    Is(f32),
    Linear(u32),
}

// The camera's angles in degrees.
#[derive(Clone, Copy, Debug, PartialEq)]
pub struct Angles {
    pub tilt: f32,
    pub roll: f32,
}

// The white balance factors on the three colours.
#[derive(Clone, Copy, Debug, PartialEq)]
pub struct Colours {
    pub red: f64,
    pub green: f64,
    pub blue: f64,
}

// The lens encoders' raw values, the lens's own (LDS) and the motor's.
#[derive(Clone, Copy, Debug, PartialEq, Eq)]
pub struct Encoders {
    pub focus_lds: Option<u64>,
    pub focus_motor: Option<u64>,
    pub zoom_lds: Option<u64>,
    pub zoom_motor: Option<u64>,
    pub iris_lds: Option<u64>,
    pub iris_motor: Option<u64>,
}

// All values of a frame, `None` where there is none: lengths in mm, times in ms, angles in degrees.
#[derive(Clone, Copy, Debug, PartialEq)]
pub struct Frame {
    pub focal_length: Option<f32>,
    pub focus_distance: Option<Distance>,
    pub t_stop: Option<TStop>,
    pub exposure_time: Option<f64>,
    pub shutter_angle: Option<f32>,
    pub tilt_roll: Option<Angles>,
    pub exposure_index: Option<u32>,
    pub white_balance: Option<u32>,
    pub nd_density: Option<f64>,
    pub effective_focal_length: Option<f64>,
    pub white_balance_factors: Option<Colours>,
    pub encoders: Encoders,
    pub tint: Option<f64>,
    pub sensor_rate: Option<f64>,
}

// The float that has these bits, where it is finite.
pub fn float_of(bits: u32) -> Option<f32>
    ensures { result ≡ float_of bits }
{
    if floats::finite_f32_bits(bits) {
        Some(floats::f32_of_bits(bits))
    } else {
        None
    }
}

// Whether the 32 bits are above 0 as a signed number.
pub fn positive(v: u32) -> bool
    ensures { result ≡ positive v }
{
    (0 < v) & (v < 0x8000_0000)
}

// v thousandths in f32, where v is usable.
pub fn single_thousandths(usable: bool, v: u32) -> Option<f32>
    ensures { result ≡ single_thousandths usable v }
{
    if usable {
        Some(floats::thousandths_f32(v))
    } else {
        None
    }
}

// v thousandths in f64, where v is usable. No generic function serves both: in f32 v is rounded before it is divided, and here the
// division alone rounds.
pub fn double_thousandths(usable: bool, v: u32) -> Option<f64>
    ensures { result ≡ double_thousandths usable v }
{
    if usable {
        Some(floats::ratio(v, 1000))
    } else {
        None
    }
}

// Tilt and roll as a pair, or nothing where one is missing.
pub fn tilt_roll_of(tilt: Option<f32>, roll: Option<f32>) -> Option<Angles>
    ensures { result ≡ tilt_roll_of tilt roll }
{
    Some(Angles {
        tilt: tilt?,
        roll: roll?,
    })
}
