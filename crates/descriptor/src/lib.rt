// Descriptor items: docs/RULES.md, "Tables inside values". They are read while 4 bytes are left; an item past the set is refusal 4. An
// item above 8 bytes is skipped, one too short for its type ignored, and a longer one gives its first bytes. Rates are f64
// quotients; one that isn't finite is stored as nothing, replacing an earlier one. Tags and order are those of the list in
// `sony/mxf.rs`.
#![tactic(auto)]

ghost use Rattle.std.specs.Prelude.{◌≡◌, ◌<◌};
ghost use Rattle.descriptor.specs.Fields.{holds, whole_after, finite_rate, rate_after, area_after, fields_after};
ghost use Rattle.descriptor.specs.Descriptor.{told, descriptor_told};

use items::{Coding, Local};
use parts::{four_at, number_at, two_at};

// A part of the picture: its size and where it begins.
#[derive(Clone, Copy, Debug, Default, PartialEq)]
pub struct Area {
    pub height: Option<u64>,
    pub width: Option<u64>,
    pub x_offset: Option<u64>,
    pub y_offset: Option<u64>,
}

// What a descriptor says, a place for each field.
#[derive(Clone, Copy, Debug, Default, PartialEq)]
pub struct Descriptor {
    pub duration: Option<u64>,
    pub timecode_base: Option<u64>,
    pub start_timecode: Option<u64>,
    pub drop_frame: Option<u64>,
    pub sample_rate: Option<f64>,
    pub container_duration: Option<u64>,
    pub stored_height: Option<u64>,
    pub stored_width: Option<u64>,
    pub sampled: Area,
    pub display: Area,
    pub aspect_ratio: Option<f64>,
    pub color_range: Option<u64>,
}

// Whether an item with a tag and a value is a field's of n bytes.
#[tactic(auto, unfolding(crate::specs::Fields::holds))]
fn holds(value: &[u8], tag: u16, field: u16, n: usize) -> bool
    ensures { result ≡ holds value.now tag field n }
{
    if tag != field {
        return false;
    }
    if 8 < value.len() {
        return false;
    }
    n <= value.len()
}

// A field of n bytes after an item.
#[tactic(auto, unfolding(crate::specs::Fields::whole_after))]
fn whole_after(value: &[u8], tag: u16, field: u16, n: usize, old: Option<u64>) -> Option<u64>
    ensures { result ≡ whole_after value.now tag field n old }
{
    if holds(value, tag, field, n) {
        return Some(number_at(value, 0, n));
    }
    old
}

// A rate, or nothing where it isn't finite.
#[tactic(auto, unfolding(crate::specs::Fields::finite_rate))]
fn finite_rate(x: f64) -> Option<f64>
    ensures { result ≡ finite_rate x }
{
    floats::finite_f64(x).then_some(x)
}

// A rate after an item.
#[tactic(auto, unfolding(crate::specs::Fields::rate_after))]
fn rate_after(value: &[u8], tag: u16, field: u16, old: Option<f64>) -> Option<f64>
    ensures { result ≡ rate_after value.now tag field old }
{
    if holds(value, tag, field, 8) {
        return finite_rate(floats::ratio(four_at(value, 0), four_at(value, 4)));
    }
    old
}

// An area after an item: its tags follow each other.
#[tactic(auto, unfolding(crate::specs::Fields::area_after))]
fn area_after(value: &[u8], tag: u16, first: u16, old: Area) -> Area
    requires { first < 65532 }
    ensures { result ≡ area_after value.now tag first old }
{
    Area {
        height: whole_after(value, tag, first, 4, old.height),
        width: whole_after(value, tag, first + 1, 4, old.width),
        x_offset: whole_after(value, tag, first + 2, 4, old.x_offset),
        y_offset: whole_after(value, tag, first + 3, 4, old.y_offset),
    }
}

// The fields after an item with a tag and a value.
#[tactic(auto, unfolding(crate::specs::Fields::fields_after))]
fn fields_after(value: &[u8], tag: u16, d: Descriptor) -> Descriptor
    ensures { result ≡ fields_after value.now tag d }
{
    Descriptor {
        duration: whole_after(value, tag, 0x0202, 8, d.duration),
        timecode_base: whole_after(value, tag, 0x1502, 2, d.timecode_base),
        start_timecode: whole_after(value, tag, 0x1501, 8, d.start_timecode),
        drop_frame: whole_after(value, tag, 0x1503, 1, d.drop_frame),
        sample_rate: rate_after(value, tag, 0x3001, d.sample_rate),
        container_duration: whole_after(value, tag, 0x3002, 8, d.container_duration),
        stored_height: whole_after(value, tag, 0x3202, 4, d.stored_height),
        stored_width: whole_after(value, tag, 0x3203, 4, d.stored_width),
        sampled: area_after(value, tag, 0x3204, d.sampled),
        display: area_after(value, tag, 0x3208, d.display),
        aspect_ratio: rate_after(value, tag, 0x320e, d.aspect_ratio),
        color_range: whole_after(value, tag, 0x3306, 4, d.color_range),
    }
}

// An item runs past its set: refusal 4.
#[derive(Clone, Copy, Debug, PartialEq, Eq)]
pub struct ItemPastSet;

// What a descriptor set says.
pub fn read(s: &[u8]) -> Result<Descriptor, ItemPastSet>
    ensures { told result ≡ descriptor_told s.now }
{
    let mut d = Descriptor::default();
    let mut items = Local { at: 0 };
    while let Some((k, next)) = items.step(s, Coding::TWO_TWO) {
        d = fields_after(k.bytes(s), two_at(s, k.at), d);
        items = next;
    }
    if s.len() - items.at < 4 {
        return Ok(d);
    }
    Err(ItemPastSet)
}
