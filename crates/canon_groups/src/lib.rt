// The fields of Canon's Private Camera Metadata, in six groups, and what a pack makes of each: docs/RULES.md, "Frame
// values". A pack is the fields' that have its id, and pack 0 is none's; a value of nothing erases nothing.
#![tactic(auto)]

ghost use Rattle.std.specs.Prelude.{◌≡◌};
ghost use Rattle.canon_groups.specs.Groups.{after, raws_of, lens_after, modes_after, shutter_after, balance_after, gain_after, ranges_after};

use canon_values::{
    Value, aperture, balance_mode, balance_preset, decibels, dynamic_range, flag, iso_mode,
    line_index, offset, put, quotient, sensitivity, tenths, two_bits, whole, zoom,
};

// A pack: its id, its four bytes, and the numbers of the first, middle and last two and of all.
#[derive(Clone, Copy, Debug, PartialEq, Eq)]
pub struct Pack {
    pub id: u8,
    pub b0: u8,
    pub b1: u8,
    pub b2: u8,
    pub b3: u8,
    pub first: u16,
    pub middle: u16,
    pub last: u16,
    pub whole: u32,
}

// Packs 1, 5, 10 and 16 to 18.
#[derive(Clone, Copy, Debug, Default, PartialEq)]
pub struct Lens {
    pub focal_length: Option<Value>,
    pub electric_zoom: Option<Value>,
    pub f_number: Option<Value>,
    pub t_number: Option<Value>,
    pub real_focal_length: Option<Value>,
    pub focal_length_35: Option<Value>,
    pub set_distortion: Option<Value>,
    pub lens_value: Option<Value>,
}

// Packs 2, 8 and 20.
#[derive(Clone, Copy, Debug, Default, PartialEq)]
pub struct Modes {
    pub focus: Option<Value>,
    pub stabilizer: Option<Value>,
    pub aperture_mode: Option<Value>,
    pub infrared: Option<Value>,
    pub high_sensitivity: Option<Value>,
    pub iso: Option<Value>,
}

// Packs 3 and 4.
#[derive(Clone, Copy, Debug, Default, PartialEq)]
pub struct Shutter {
    pub speed: Option<Value>,
    pub mode: Option<Value>,
    pub value: Option<Value>,
}

// Pack 6.
#[derive(Clone, Copy, Debug, Default, PartialEq)]
pub struct Balance {
    pub mode: Option<Value>,
    pub preset: Option<Value>,
    pub accurate: Option<Value>,
    pub temperature: Option<Value>,
    pub isotemperature: Option<Value>,
}

// Packs 7, 9, 11 and 19.
#[derive(Clone, Copy, Debug, Default, PartialEq)]
pub struct Gain {
    pub mode: Option<Value>,
    pub level: Option<Value>,
    pub nd_filter: Option<Value>,
    pub iso_speed: Option<Value>,
    pub base_iso: Option<Value>,
}

// Packs 12 to 15.
#[derive(Clone, Copy, Debug, Default, PartialEq)]
pub struct Ranges {
    pub camera: Option<Value>,
    pub base_gamma: Option<Value>,
    pub tilt: Option<Value>,
    pub roll: Option<Value>,
}

// A field after a pack, which is the field's where it has the id.
#[tactic(auto, unfolding(crate::specs::Groups::after))]
fn after(p: Pack, id: u8, old: Option<Value>, new: Option<Value>) -> Option<Value>
    ensures { result ≡ after p.id id old new }
{
    if p.id == id { put(old, new) } else { old }
}

// The lens after a pack. This and the five below differ in their packs, fields and conversions: one function for all would take these
// as a table, and be no plainer.
pub fn lens_after(p: Pack, g: Lens) -> Lens
    ensures { result ≡ lens_after p.id (raws_of p) g }
{
    Lens {
        focal_length: after(p, 1, g.focal_length, tenths(u32::from(p.first), 0xffff)),
        electric_zoom: after(p, 1, g.electric_zoom, zoom(p.last)),
        f_number: after(p, 5, g.f_number, aperture(p.first, p.last)),
        t_number: after(p, 10, g.t_number, aperture(p.first, p.last)),
        real_focal_length: after(p, 16, g.real_focal_length, tenths(p.whole, 0xffff_ffff)),
        focal_length_35: after(p, 17, g.focal_length_35, tenths(p.whole, 0xffff_ffff)),
        set_distortion: after(p, 18, g.set_distortion, Some(flag(p.b0 / 128))),
        lens_value: after(p, 18, g.lens_value, offset(p.last)),
    }
}

// The modes after a pack.
pub fn modes_after(p: Pack, g: Modes) -> Modes
    ensures { result ≡ modes_after p.id (raws_of p) g }
{
    Modes {
        focus: after(p, 2, g.focus, Some(two_bits(p.b0 / 64))),
        stabilizer: after(p, 2, g.stabilizer, Some(two_bits(p.b0 / 16 % 4))),
        aperture_mode: after(p, 2, g.aperture_mode, Some(Value::Code(p.b0 / 8 % 2))),
        infrared: after(p, 8, g.infrared, Some(Value::Code(p.b0 / 64))),
        high_sensitivity: after(p, 8, g.high_sensitivity, sensitivity(p.b0 % 16, p.b1 % 2)),
        iso: after(p, 20, g.iso, iso_mode(p.b0 % 4)),
    }
}

// The shutter after a pack.
pub fn shutter_after(p: Pack, g: Shutter) -> Shutter
    ensures { result ≡ shutter_after p.id (raws_of p) g }
{
    Shutter {
        speed: after(p, 3, g.speed, quotient(p.first, p.last, 0xffff)),
        mode: after(p, 4, g.mode, Some(two_bits(p.b0 / 64))),
        value: after(p, 4, g.value, quotient(p.middle, u16::from(p.b3), 0xff)),
    }
}

// The white balance after a pack.
pub fn balance_after(p: Pack, g: Balance) -> Balance
    ensures { result ≡ balance_after p.id (raws_of p) g }
{
    Balance {
        mode: after(p, 6, g.mode, balance_mode(p.b0 / 32)),
        preset: after(p, 6, g.preset, balance_preset(p.b0 % 32)),
        accurate: after(p, 6, g.accurate, Some(Value::Code(p.b1 / 128))),
        temperature: after(
            p,
            6,
            g.temperature,
            whole(u32::from(p.middle % 32768), 32767),
        ),
        isotemperature: after(p, 6, g.isotemperature, line_index(p.b3)),
    }
}

// The gain after a pack.
pub fn gain_after(p: Pack, g: Gain) -> Gain
    ensures { result ≡ gain_after p.id (raws_of p) g }
{
    let mode = after(p, 7, g.mode, Some(Value::Code(p.b0 / 128)));
    let level = after(
        p,
        7,
        g.level,
        decibels(u16::from(p.b0 % 128), 127, p.b2 / 16),
    );
    let nd_filter = after(p, 7, g.nd_filter, whole(u32::from(p.b1), 255));
    Gain {
        mode: after(p, 11, mode, Some(Value::Code(p.b0 / 128))),
        level: after(p, 11, level, decibels(p.first % 4096, 4095, p.b0 / 16 % 8)),
        nd_filter: after(p, 11, nd_filter, whole(u32::from(p.last), 0xffff)),
        iso_speed: after(p, 9, g.iso_speed, whole(p.whole, 0xffff_ffff)),
        base_iso: after(p, 19, g.base_iso, whole(p.whole, 0xffff_ffff)),
    }
}

// The ranges after a pack.
pub fn ranges_after(p: Pack, g: Ranges) -> Ranges
    ensures { result ≡ ranges_after p.id (raws_of p) g }
{
    Ranges {
        camera: after(p, 12, g.camera, dynamic_range(p.whole)),
        base_gamma: after(p, 13, g.base_gamma, tenths(p.whole, 0xffff_ffff)),
        tilt: after(p, 14, g.tilt, offset(p.first)),
        roll: after(p, 15, g.roll, offset(p.first)),
    }
}
