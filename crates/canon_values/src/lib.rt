// The values of Canon's packs, each kind of field by a function of its own.
#![tactic(auto)]

ghost use Rattle.std.specs.Prelude.{◌≡◌};
ghost use Rattle.canon_values.specs.Values.{tenths, zoom, missing, quotient, aperture, two_bits, whole, balance_mode, balance_preset, line_index, decibels, sensitivity, dynamic_range, offset, flag, iso_mode, put};

// A field's value. The texts are those that don't come from a table of names.
#[derive(Clone, Copy, Debug, PartialEq)]
pub enum Value {
    // What a table of names is asked for.
    Code(u8),
    Whole(u32),
    Signed(i16),
    Float(f64),
    Flag(bool),
    Off,
    Close,
    Others,
    Auto,
    Manual,
    Reserved,
}

// A value in tenths, unless it is the number that says that there is none.
#[tactic(auto, unfolding(crate::specs::Values::tenths))]
pub fn tenths(v: u32, none: u32) -> Option<Value>
    ensures { result ≡ tenths v none }
{
    if v == none {
        return None;
    }
    Some(Value::Float(floats::ratio(v, 10)))
}

// An electric zoom.
#[tactic(auto, unfolding(crate::specs::Values::zoom))]
pub fn zoom(v: u16) -> Option<Value>
    ensures { result ≡ zoom v }
{
    if v == 0 {
        return Some(Value::Off);
    }
    tenths(u32::from(v), 0xffff)
}

// Whether a number is 0 or the one that says that there is none.
#[tactic(auto, unfolding(crate::specs::Values::missing))]
fn missing(v: u16, none: u16) -> bool
    ensures { result ≡ missing v none }
{
    v == 0 || v == none
}

// A quotient of two numbers, unless one of them is 0 or says that there is none.
#[tactic(auto, unfolding(crate::specs::Values::quotient))]
pub fn quotient(a: u16, b: u16, none: u16) -> Option<Value>
    ensures { result ≡ quotient a b none }
{
    if missing(a, 0xffff) || missing(b, none) {
        return None;
    }
    Some(Value::Float(floats::ratio(u32::from(a), u32::from(b))))
}

// An aperture: closed is looked at first.
#[tactic(auto, unfolding(crate::specs::Values::aperture))]
pub fn aperture(a: u16, b: u16) -> Option<Value>
    ensures { result ≡ aperture a b }
{
    if a == 65534 || b == 65534 {
        return Some(Value::Close);
    }
    quotient(a, b, 0xffff)
}

// A code of two bits, whose 3 is no information: 255.
#[tactic(auto, unfolding(crate::specs::Values::two_bits))]
pub fn two_bits(code: u8) -> Value
    ensures { result ≡ two_bits code }
{
    if code == 3 {
        return Value::Code(255);
    }
    Value::Code(code)
}

// A whole number, unless it is the one that says that there is none.
#[tactic(auto, unfolding(crate::specs::Values::whole))]
pub fn whole(v: u32, none: u32) -> Option<Value>
    ensures { result ≡ whole v none }
{
    if v == none {
        return None;
    }
    Some(Value::Whole(v))
}

// A white balance's mode.
#[tactic(auto, unfolding(crate::specs::Values::balance_mode))]
pub fn balance_mode(code: u8) -> Option<Value>
    ensures { result ≡ balance_mode code }
{
    if code == 7 {
        return None;
    }
    Some(Value::Code(code))
}

// A white balance's preset.
#[tactic(auto, unfolding(crate::specs::Values::balance_preset))]
pub fn balance_preset(code: u8) -> Option<Value>
    ensures { result ≡ balance_preset code }
{
    match code {
        30 => Some(Value::Others),
        31 => None,
        _ => Some(Value::Code(code)),
    }
}

// An isotemperature line.
#[tactic(auto, unfolding(crate::specs::Values::line_index))]
pub fn line_index(v: u8) -> Option<Value>
    ensures { result ≡ line_index v }
{
    if v == 255 {
        return None;
    }
    Some(Value::Signed(signed::around8(v)))
}

// A gain in dB: its two products are rounded, and then their sum.
#[tactic(auto, unfolding(crate::specs::Values::decibels))]
pub fn decibels(master: u16, none: u16, delta: u8) -> Option<Value>
    ensures { result ≡ decibels master none delta }
{
    if master == none {
        return None;
    }
    let delta = if delta <= 4 { delta } else { 0 };
    Some(Value::Float(floats::gain(master, delta)))
}

// Whether sensitivity is high, told by packs of type 0.
#[tactic(auto, unfolding(crate::specs::Values::sensitivity))]
pub fn sensitivity(kind: u8, code: u8) -> Option<Value>
    ensures { result ≡ sensitivity kind code }
{
    if kind == 0 {
        return Some(Value::Code(code));
    }
    None
}

// A dynamic range.
#[tactic(auto, unfolding(crate::specs::Values::dynamic_range))]
pub fn dynamic_range(v: u32) -> Option<Value>
    ensures { result ≡ dynamic_range v }
{
    if v == 0xffff_fffe {
        return Some(Value::Auto);
    }
    tenths(v, 0xffff_ffff)
}

// A value in tenths around 8000h.
#[tactic(auto, unfolding(crate::specs::Values::offset))]
pub fn offset(v: u16) -> Option<Value>
    ensures { result ≡ offset v }
{
    if v == 0xffff {
        return None;
    }
    Some(Value::Float(floats::offset_tenths(v)))
}

// Whether a bit is set.
#[tactic(auto, unfolding(crate::specs::Values::flag))]
pub fn flag(bit: u8) -> Value
    ensures { result ≡ flag bit }
{
    Value::Flag(bit != 0)
}

// How ISO is chosen.
#[tactic(auto, unfolding(crate::specs::Values::iso_mode))]
pub fn iso_mode(code: u8) -> Option<Value>
    ensures { result ≡ iso_mode code }
{
    match code {
        0 => Some(Value::Auto),
        1 => Some(Value::Manual),
        2 => Some(Value::Reserved),
        _ => None,
    }
}

// A value put over another: nothing erases nothing.
#[tactic(auto, unfolding(crate::specs::Values::put))]
pub fn put(old: Option<Value>, new: Option<Value>) -> Option<Value>
    ensures { result ≡ put old new }
{
    new.or(old)
}
