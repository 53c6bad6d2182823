// What a host links of picture descriptors: a set in, a status and two lent arrays out, with a place in each for each item
// (include/brinethimble.h).
#![tactic(auto)]

ghost use Rattle.std.specs.Prelude.{◌≡◌};
ghost use Rattle.host_slots.specs.Slots.{kinds, patterns};
ghost use Rattle.descriptor.specs.Descriptor.{descriptor_told};
ghost use Rattle.host_descriptor.specs.Places.{whole_slot, rate_slot, descriptor_slots, status_of, after};

use descriptor::Descriptor;
use host_slots::{Slot, WHOLE, double, nothing, of_kind, put};

// A whole number, where there is one.
fn whole_slot(v: Option<u64>) -> Slot
    ensures { result ≡ whole_slot v }
{
    match v {
        Some(n) => of_kind(WHOLE, n),
        None => nothing(),
    }
}

// A quotient, where there is one.
fn rate_slot(v: Option<f64>) -> Slot
    ensures { result ≡ rate_slot v }
{
    match v {
        Some(x) => double(x),
        None => nothing(),
    }
}

// All items of a descriptor, each at its place.
fn descriptor_slots(d: Descriptor) -> [Slot; 32]
    ensures { result ≡ descriptor_slots d }
{
    let none = nothing();
    [
        whole_slot(d.duration),
        whole_slot(d.timecode_base),
        whole_slot(d.start_timecode),
        whole_slot(d.drop_frame),
        rate_slot(d.sample_rate),
        whole_slot(d.container_duration),
        whole_slot(d.stored_height),
        whole_slot(d.stored_width),
        whole_slot(d.sampled.height),
        whole_slot(d.sampled.width),
        whole_slot(d.sampled.x_offset),
        whole_slot(d.sampled.y_offset),
        whole_slot(d.display.height),
        whole_slot(d.display.width),
        whole_slot(d.display.x_offset),
        whole_slot(d.display.y_offset),
        rate_slot(d.aspect_ratio),
        whole_slot(d.color_range),
        none,
        none,
        none,
        none,
        none,
        none,
        none,
        none,
        none,
        none,
        none,
        none,
        none,
        none,
    ]
}

// The items of a picture descriptor's set.
#[unsafe(no_mangle)]
pub extern "C" fn brine_descriptor(s: &[u8], kind: &mut [u64; 32], bits: &mut [u64; 32]) -> u32
    ensures value { result ≡ status_of (descriptor_told s.now) }
    ensures kind_after { kind.new ≡ after kinds (descriptor_told s.now) kind.old }
    ensures bits_after { bits.new ≡ after patterns (descriptor_told s.now) bits.old }
{
    match descriptor::read(s) {
        Ok(d) => {
            put(&descriptor_slots(d), kind, bits);
            0
        }
        Err(_) => 4,
    }
}
