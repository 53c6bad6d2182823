// The values of a frame at their places of a host's two arrays: include/brinethimble.h, BRINE_FRAME_*.
#![tactic(auto)]

ghost use Rattle.std.specs.Prelude.{◌≡◌};
ghost use Rattle.host_slots.specs.Slots.{whole, kinds, patterns};
ghost use Rattle.host_frame_places.specs.Places.{of_distance, of_t_stop, frame_slots, value_slots};

use frame_values::{Distance, Frame, TStop};
use host_slots::{INFINITY, LINEAR, Slot, WHOLE, double, nothing, of_kind, put, single};

// A distance in metres, or infinite.
fn of_distance(d: Distance) -> Slot
    ensures { result ≡ of_distance d }
{
    match d {
        Distance::Metres(x) => single(x),
        Distance::Infinity => of_kind(INFINITY, 0),
    }
}

// A T-stop, or its number on the linear scale.
fn of_t_stop(t: TStop) -> Slot
    ensures { result ≡ of_t_stop t }
{
    match t {
        TStop::Is(x) => single(x),
        TStop::Linear(n) => of_kind(LINEAR, u64::from(n)),
    }
}

// A whole number.
fn whole(n: u64) -> Slot
    ensures { result ≡ whole n }
{
    of_kind(WHOLE, n)
}

// All values of a frame, each at its place.
fn frame_slots(f: Frame) -> [Slot; 32]
    ensures { result ≡ frame_slots f }
{
    let e = f.encoders;
    let none = nothing();
    [
        f.focal_length.map_or(none, single),
        f.focus_distance.map_or(none, of_distance),
        f.t_stop.map_or(none, of_t_stop),
        f.exposure_time.map_or(none, double),
        f.shutter_angle.map_or(none, single),
        f.tilt_roll.map_or(none, |a| single(a.tilt)),
        f.tilt_roll.map_or(none, |a| single(a.roll)),
        f.exposure_index.map_or(none, |n| whole(u64::from(n))),
        f.white_balance.map_or(none, |n| whole(u64::from(n))),
        f.nd_density.map_or(none, double),
        f.effective_focal_length.map_or(none, double),
        f.white_balance_factors.map_or(none, |k| double(k.red)),
        f.white_balance_factors.map_or(none, |k| double(k.green)),
        f.white_balance_factors.map_or(none, |k| double(k.blue)),
        e.focus_lds.map_or(none, whole),
        e.focus_motor.map_or(none, whole),
        e.zoom_lds.map_or(none, whole),
        e.zoom_motor.map_or(none, whole),
        e.iris_lds.map_or(none, whole),
        e.iris_motor.map_or(none, whole),
        f.tint.map_or(none, double),
        f.sensor_rate.map_or(none, double),
        none,
        none,
        none,
        none,
        none,
        none,
        none,
        none,
        none,
        none,
    ]
}

// Puts all values of a frame.
pub fn put_frame(f: Frame, kind: &mut [u64; 32], bits: &mut [u64; 32])
    ensures kind_after { kind.new ≡ kinds (frame_slots f) }
    ensures bits_after { bits.new ≡ patterns (frame_slots f) }
{
    put(&frame_slots(f), kind, bits);
}

// Puts the values of a frame that may have none.
pub fn put_values(v: Option<Frame>, kind: &mut [u64; 32], bits: &mut [u64; 32])
    ensures kind_after { kind.new ≡ kinds (value_slots v) }
    ensures bits_after { bits.new ≡ patterns (value_slots v) }
{
    match v {
        Some(f) => put_frame(f, kind, bits),
        None => {
            *kind = [0; 32];
            *bits = [0; 32];
        }
    }
}
