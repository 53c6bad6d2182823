// What a host links of Canon's packs: a Private Camera Metadata in, two lent arrays out, with a place in each for each value
// (include/brinethimble.h).
#![tactic(auto)]

ghost use Rattle.std.specs.Prelude.{◌≡◌};
ghost use Rattle.host_slots.specs.Slots.{kinds, patterns};
ghost use Rattle.canon_packs.specs.Camera.{camera_of};
ghost use Rattle.host_canon.specs.Places.{value_slot, camera_slots};

use canon_packs::Camera;
use canon_values::Value;
use host_numbers::{mark, twos};
use host_slots::{
    AUTO, CLOSE, CODE, FLAG, MANUAL, OFF, OTHERS, RESERVED, SIGNED, Slot, WHOLE, double, nothing,
    of_kind, put,
};

// A value's kind and its bits.
#[tactic(auto, unfolding(crate::specs::Places::value_slot))]
fn value_slot(v: Option<Value>) -> Slot
    ensures { result ≡ value_slot v }
{
    let Some(v) = v else {
        return nothing();
    };
    match v {
        Value::Code(n) => of_kind(CODE, u64::from(n)),
        Value::Whole(n) => of_kind(WHOLE, u64::from(n)),
        Value::Signed(n) => of_kind(SIGNED, twos(i64::from(n))),
        Value::Float(x) => double(x),
        Value::Flag(b) => of_kind(FLAG, mark(b)),
        Value::Off => of_kind(OFF, 0),
        Value::Close => of_kind(CLOSE, 0),
        Value::Others => of_kind(OTHERS, 0),
        Value::Auto => of_kind(AUTO, 0),
        Value::Manual => of_kind(MANUAL, 0),
        Value::Reserved => of_kind(RESERVED, 0),
    }
}

// All values of a camera, each at its place.
#[tactic(auto, unfolding(crate::specs::Places::camera_slots))]
fn camera_slots(c: Camera) -> [Slot; 32]
    ensures { result ≡ camera_slots c }
{
    [
        value_slot(c.lens.focal_length),
        value_slot(c.lens.electric_zoom),
        value_slot(c.lens.f_number),
        value_slot(c.lens.t_number),
        value_slot(c.lens.real_focal_length),
        value_slot(c.lens.focal_length_35),
        value_slot(c.lens.set_distortion),
        value_slot(c.lens.lens_value),
        value_slot(c.modes.focus),
        value_slot(c.modes.stabilizer),
        value_slot(c.modes.aperture_mode),
        value_slot(c.modes.infrared),
        value_slot(c.modes.high_sensitivity),
        value_slot(c.modes.iso),
        value_slot(c.shutter.speed),
        value_slot(c.shutter.mode),
        value_slot(c.shutter.value),
        value_slot(c.balance.mode),
        value_slot(c.balance.preset),
        value_slot(c.balance.accurate),
        value_slot(c.balance.temperature),
        value_slot(c.balance.isotemperature),
        value_slot(c.gain.mode),
        value_slot(c.gain.level),
        value_slot(c.gain.nd_filter),
        value_slot(c.gain.iso_speed),
        value_slot(c.gain.base_iso),
        value_slot(c.ranges.camera),
        value_slot(c.ranges.base_gamma),
        value_slot(c.ranges.tilt),
        value_slot(c.ranges.roll),
        nothing(),
    ]
}

// The packs of a Private Camera Metadata.
#[unsafe(no_mangle)]
pub extern "C" fn brine_camera(s: &[u8], kind: &mut [u64; 32], bits: &mut [u64; 32]) -> u32
    ensures value { result ≡ 0 }
    ensures kind_after { kind.new ≡ kinds (camera_slots (camera_of s.now)) }
    ensures bits_after { bits.new ≡ patterns (camera_slots (camera_of s.now)) }
{
    let c = canon_packs::read(s);
    put(&camera_slots(c), kind, bits);
    0
}
