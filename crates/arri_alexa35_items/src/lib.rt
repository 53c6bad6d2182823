// What an item of an ALEXA 35's frame metadata (RDD 55) says, by its number and its value: docs/RULES.md, "Frame values". Distances
// multiply in f64, then narrow once; an empty whole number is 0; index and balance keep the low 32 bits. A value of another
// width than its kind's is not usable.
#![tactic(auto)]

ghost use Rattle.std.specs.Prelude.{◌≡◌};
ghost use Rattle.arri_alexa35_items.specs.Kinds.{number_in, float_in, positive_in, focal_length_in, effective_in, t_stop_in, metres_of, distance_of, distance_in, rational_in, rate_in, exposure_in, whole_in, low_in, tint_of, density_of};

use frame_values::{Distance, TStop, positive};
use labels::begins;
use parts::{four_at, number, part, two_at};

// Bytes 8 to 11 of ARRI's keys.
const ARRI_ITEMS: [u8; 4] = *b"\x0e\x17\x01\x02";

// An item's number: what bytes 12 and 13 of its key hold, where the key is one of ARRI's.
pub fn number_in(key: &[u8]) -> Option<u16>
    ensures { result ≡ number_in key.now }
{
    if begins(&labels::KEY_START, key) {
        if begins(&ARRI_ITEMS, part(key, 8, 4)) {
            return Some(two_at(key, 12));
        }
    }
    None
}

// The f32, where it is finite.
pub fn float_in(v: &[u8]) -> Option<f32>
    ensures { result ≡ float_in v.now }
{
    if v.len() == 4 {
        frame_values::float_of(four_at(v, 0))
    } else {
        None
    }
}

// Whether it is an i32 above 0.
fn positive_in(v: &[u8]) -> bool
    ensures { result ≡ positive_in v.now }
{
    (v.len() == 4) & positive(four_at(v, 0))
}

// The focal length in mm.
pub fn focal_length_in(v: &[u8]) -> Option<f32>
    ensures { result ≡ focal_length_in v.now }
{
    frame_values::single_thousandths(positive_in(v), four_at(v, 0))
}

// The effective focal length in mm.
pub fn effective_in(v: &[u8]) -> Option<f64>
    ensures { result ≡ effective_in v.now }
{
    frame_values::double_thousandths(positive_in(v), four_at(v, 0))
}

// The T-stop's number on the linear scale.
pub fn t_stop_in(v: &[u8]) -> Option<TStop>
    ensures { result ≡ t_stop_in v.now }
{
    if positive_in(v) {
        Some(TStop::Linear(four_at(v, 0)))
    } else {
        None
    }
}

// So many thousandths of an inch, or millimetres, in metres.
fn metres_of(imperial: bool, n: u32) -> f32
    ensures { result ≡ metres_of imperial n }
{
    if imperial {
        floats::metres_of_mils(n)
    } else {
        floats::metres_of_millimetres(n)
    }
}

// The distance by its number.
fn distance_of(imperial: bool, n: u32) -> Option<Distance>
    ensures { result ≡ distance_of imperial n }
{
    if n == 0xffff_ffff {
        return Some(Distance::Infinity);
    }
    if positive(n) {
        Some(Distance::Metres(metres_of(imperial, n)))
    } else {
        None
    }
}

// The distance, in thousandths of an inch or in millimetres.
pub fn distance_in(imperial: bool, v: &[u8]) -> Option<Distance>
    ensures { result ≡ distance_in imperial v.now }
{
    if v.len() == 4 {
        distance_of(imperial, four_at(v, 0))
    } else {
        None
    }
}

// Whether it is a rational: two u32, of which the second is not 0.
fn rational_in(v: &[u8]) -> bool
    ensures { result ≡ rational_in v.now }
{
    (v.len() == 8) & (0 < four_at(v, 4))
}

// The rational as an f64.
pub fn rate_in(v: &[u8]) -> Option<f64>
    ensures { result ≡ rate_in v.now }
{
    if rational_in(v) {
        Some(floats::ratio(four_at(v, 0), four_at(v, 4)))
    } else {
        None
    }
}

// The rational of seconds in milliseconds.
pub fn exposure_in(v: &[u8]) -> Option<f64>
    ensures { result ≡ exposure_in v.now }
{
    if rational_in(v) {
        Some(floats::milliseconds(four_at(v, 0), four_at(v, 4)))
    } else {
        None
    }
}

// The whole number of at most 8 bytes.
pub fn whole_in(v: &[u8]) -> Option<u64>
    ensures { result ≡ whole_in v.now }
{
    if v.len() <= 8 { Some(number(v)) } else { None }
}

// The low 32 bits of the whole number of at most 8 bytes.
pub fn low_in(v: &[u8]) -> Option<u32>
    ensures { result ≡ low_in v.now }
{
    if v.len() <= 8 {
        let low = number(v) % 0x1_0000_0000;
        Some(low as u32)
    } else {
        None
    }
}

// The white balance's tint by its f32.
pub fn tint_of(x: Option<f32>) -> Option<f64>
    ensures { result ≡ tint_of x }
{
    Some(floats::widen(x?))
}

// The ND filter's density by its f32.
pub fn density_of(x: Option<f32>) -> Option<f64>
    ensures { result ≡ density_of x }
{
    Some(floats::density(x?))
}
