// Numbers that round, and the conversions on which frame values stand.
//
// docs/RULES.md, "Frame values". A u32 becomes an f32 to the nearest, ties to even, before it is divided in f32: the count of leading
// zero bits fixes how many low bits are dropped. Canon ratios and rates are one division in f64. Distances of the ALEXA 35 multiply in f64, then
// narrow once. Rounding casts are worked out on the float's bits.
//
// Each contract equates the result with a definition of specs/, in the operations of IEEE 754 as `lib.Ieee` has them, at every input: zeros keep their sign, and
// NaNs and infinities are answered as Rust answers them.
//
//     Rust                                                  here
//     v as f32                                              nearest_f32(v)
//     x as f32, of an f64                                   narrow_f32(x)
//     x as f64, of an f32                                   widen(x)
//     f32::from_bits(b), and is_finite() of it              f32_of_bits(b), finite_f32_bits(b)
//     x.is_finite(), of an f64                              finite_f64(x)
//     a as f64 / b as f64, v as f64 / 10.0, / 1000.0        ratio(a, b), ratio(v, 10), ratio(v, 1000)
//     num as f64 / den as f64 * 1000.0                      milliseconds(num, den)
//     v as f32 / 1000.0, x / 1000.0 of an f32               thousandths_f32(v), over_thousand_f32(x)
//     v as u16 as i16 as f32 / 10.0                         low_tenths(v)
//     (v as i32 - 0x8000) as f64 / 10.0                     offset_tenths(v)
//     (v as f64 * 0.001) as f32, and by 0.0000254           metres_of_millimetres(v), metres_of_mils(v)
//     if d > 10.0 { d as f64 / 1000.0 } else { d as f64 }   density(d)
//     (master as f64 - 32.0) * 0.5 + delta as f64 * 0.1     gain(master, delta)
//
// What a pair of functions says of the f32 and of the f64 stays written twice: no trait of core has `from_bits` and `to_bits`, and f32 and
// f64 share no constants, so one generic function would be longer than the two.
#![tactic(auto)]

ghost use Rattle.std.specs.Prelude.{◌≡◌, ◌-◌, ◌^◌, ◌<◌, ◌≤◌, from_bits, to_bits};
ghost use Rattle.std.specs.Float.{binary32, binary64};
ghost use Rattle.std.specs.Float.Ieee.Nearest.{closest};
ghost use Rattle.std.specs.Float.Ieee.Scale.{finite};
ghost use Rattle.floats.specs.Rounding.{nearest_f32, narrow_f32, packed_bits};
ghost use Rattle.floats.specs.Quotients.{ratio, thousandths_f32, low_tenths, offset_tenths, over_thousand, density, milliseconds, gain, metres, metres_of_millimetres, metres_of_mils};

// The parts of a float's bits: the weight of the exponent's field, infinity's pattern, and the weight of the sign.
const EXPONENT_F32: u64 = 0x0080_0000;

const INFINITY_F32: u32 = 0x7f80_0000;

const SIGN_F32: u32 = 0x8000_0000;

const EXPONENT_F64: u64 = 0x0010_0000_0000_0000;

const INFINITY_F64: u64 = 0x7ff0_0000_0000_0000;

const SIGN_F64: u64 = 0x8000_0000_0000_0000;

// v / unit to the nearest whole number, a tie to the even one.
fn closest(v: u64, unit: u64) -> u64
    requires { (0 < unit) × (unit ≤ 2 ^ 63) }
    ensures { result ≡ closest v unit }
{
    let whole = v / unit;
    let twice = v % unit * 2;
    if twice < unit {
        whole
    } else if twice == unit {
        whole + whole % 2
    } else {
        whole + 1
    }
}

// The bits of the f32 that is nearest to digits over 2 ^ dropped, in units of 2 ^ raised of the smallest f32. A carry out of the digits
// goes into the exponent by itself, and above the largest f32 stands infinity.
fn packed_f32(raised: u64, digits: u64, dropped: u32) -> u32
    requires { (raised < 2 ^ 32) × (digits < 2 ^ 62) × (dropped < 64) }
    ensures { result ≡ packed_bits binary32 raised (closest digits (2 ^ dropped)) }
{
    let unit = 1u64 << dropped;
    let bits = raised * EXPONENT_F32 + closest(digits, unit);
    bits.min(u64::from(INFINITY_F32)) as u32
}

// The f32 nearest to v, a tie to the even one. The count of leading zeros gives the exponent and the rounding place: v has 32 - zeros digits, so of
// v with 24 zeros behind it the last 32 - zeros are dropped.
pub fn nearest_f32(v: u32) -> f32
    ensures { result ≡ nearest_f32 v }
{
    if v == 0 {
        return 0.0;
    }
    let zeros = u32::leading_zeros(v);
    let digits = u64::from(v) * 16777216;
    f32::from_bits(packed_f32(u64::from(157 - zeros), digits, 32 - zeros))
}

// The f32 nearest to x, a tie to the even one: Rust's `x as f32`. The exponent's field gives the rounding place: 29 digits are dropped, and
// below the normal f32 one more for each step down, of which 63 are as good as all.
pub fn narrow_f32(x: f64) -> f32
    ensures { result ≡ narrow_f32 x }
{
    if x != x {
        return 0.0 / 0.0;
    }
    let bits = f64::to_bits(x);
    let field = bits / EXPONENT_F64 % 2048;
    let digits = bits % EXPONENT_F64 + EXPONENT_F64;
    let dropped = 29 + 897u64.saturating_sub(field).min(34);
    let magnitude = packed_f32(field.saturating_sub(897), digits, dropped as u32);
    let sign = (bits / SIGN_F64) as u32;
    f32::from_bits(sign * SIGN_F32 + magnitude)
}

// x as an f64, which holds every f32.
pub fn widen(x: f32) -> f64
    ensures { result ≡ x }
{
    std::num::f32_to_f64_with_nan(x)
}

// The f32 that has these bits.
pub fn f32_of_bits(bits: u32) -> f32
    ensures { result ≡ from_bits binary32 bits }
{
    if INFINITY_F32 < bits % SIGN_F32 {
        return 0.0 / 0.0;
    }
    f32::from_bits(bits)
}

// The f64 that has these bits.
pub fn f64_of_bits(bits: u64) -> f64
    ensures { result ≡ from_bits binary64 bits }
{
    if INFINITY_F64 < bits % SIGN_F64 {
        return 0.0 / 0.0;
    }
    f64::from_bits(bits)
}

// The bits of x, of every NaN the same ones.
pub fn f32_bits(x: f32) -> u32
    ensures { result ≡ to_bits binary32 x }
{
    if x != x { 0x7fc0_0000 } else { f32::to_bits(x) }
}

// The bits of x, of every NaN the same ones.
pub fn f64_bits(x: f64) -> u64
    ensures { result ≡ to_bits binary64 x }
{
    if x != x {
        0x7ff8_0000_0000_0000
    } else {
        f64::to_bits(x)
    }
}

// Whether the f32 that has these bits is finite.
pub fn finite_f32_bits(bits: u32) -> bool
    ensures { result ≡ finite (from_bits binary32 bits) }
{
    bits % SIGN_F32 < INFINITY_F32
}

// Whether x is finite.
pub fn finite_f64(x: f64) -> bool
    ensures { result ≡ finite x }
{
    f64_bits(x) % SIGN_F64 < INFINITY_F64
}

// a / b in f64: one division of two numbers that are f64 exactly.
pub fn ratio(a: u32, b: u32) -> f64
    ensures { result ≡ ratio a b }
{
    f64::from(a) / f64::from(b)
}

// num / den seconds as milliseconds.
pub fn milliseconds(num: u32, den: u32) -> f64
    ensures { result ≡ milliseconds num den }
{
    ratio(num, den) * 1000.0
}

// x / 1000 in f32.
pub fn over_thousand_f32(x: f32) -> f32
    ensures { result ≡ over_thousand binary32 x }
{
    x / 1000.0
}

// v thousandths in f32: rounded to an f32, and then divided.
pub fn thousandths_f32(v: u32) -> f32
    ensures { result ≡ thousandths_f32 v }
{
    over_thousand_f32(nearest_f32(v))
}

// The low 16 bits of v, signed, over 10 in f32.
pub fn low_tenths(v: u32) -> f32
    ensures { result ≡ low_tenths v }
{
    f32::from(signed::signed16((v % 65536) as u16)) / 10.0
}

// Tenths around 8000h in f64.
pub fn offset_tenths(v: u16) -> f64
    ensures { result ≡ offset_tenths v }
{
    f64::from(signed::around16(v)) / 10.0
}

// The density d, which above 10 is in thousandths, in f64.
pub fn density(d: f32) -> f64
    ensures { result ≡ density d }
{
    if 10.0 < d {
        widen(d) / 1000.0
    } else {
        widen(d)
    }
}

// The gain in dB of a master gain, half a dB a step from 0 dB at 32, and of a delta in tenths.
pub fn gain(master: u16, delta: u8) -> f64
    ensures { result ≡ gain master delta }
{
    (f64::from(master) - 32.0) * 0.5 + f64::from(delta) * 0.1
}

// v units of so many metres: multiplied in f64, then narrowed once.
fn metres(v: u32, unit: f64) -> f32
    ensures { result ≡ metres v unit }
{
    narrow_f32(f64::from(v) * unit)
}

// v millimetres in metres.
pub fn metres_of_millimetres(v: u32) -> f32
    ensures { result ≡ metres_of_millimetres v }
{
    metres(v, 0.001)
}

// v thousandths of an inch in metres.
pub fn metres_of_mils(v: u32) -> f32
    ensures { result ≡ metres_of_mils v }
{
    metres(v, 0.0000254)
}
