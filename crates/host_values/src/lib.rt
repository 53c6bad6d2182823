// What a host links of frame values: bytes in, two lent arrays out, with a place in each for each value
// (include/brinethimble.h).
#![tactic(auto)]

ghost use Rattle.std.specs.Prelude.{◌≡◌};
ghost use Rattle.host_slots.specs.Slots.{kinds, patterns};
ghost use Rattle.host_frame_places.specs.Places.{frame_slots, value_slots};
ghost use Rattle.arri_mini.specs.Dynamic.{dynamic_of};
ghost use Rattle.arri_alexa35.specs.Alexa.{alexa_of};
ghost use Rattle.arri_values.specs.Values.{values_of};
ghost use Rattle.host_values.specs.Values.{frame_of, found_places};

use host_frame_places::{put_frame, put_values};
use klv::Klv;

// The values in ARRI's 256 bytes.
#[unsafe(no_mangle)]
pub extern "C" fn brine_of_dynamic(block: &[u8], kind: &mut [u64; 32], bits: &mut [u64; 32]) -> u32
    ensures value { result ≡ 0 }
    ensures kind_after { kind.new ≡ kinds (frame_slots (dynamic_of block.now)) }
    ensures bits_after { bits.new ≡ patterns (frame_slots (dynamic_of block.now)) }
{
    let f = arri_mini::of_dynamic(block);
    put_frame(f, kind, bits);
    0
}

// The values in an ALEXA 35's element.
#[unsafe(no_mangle)]
pub extern "C" fn brine_of_alexa35(
    element: &[u8],
    kind: &mut [u64; 32],
    bits: &mut [u64; 32],
) -> u32
    ensures value { result ≡ 0 }
    ensures kind_after { kind.new ≡ kinds (frame_slots (alexa_of element.now)) }
    ensures bits_after { bits.new ≡ patterns (frame_slots (alexa_of element.now)) }
{
    let f = arri_alexa35::of_alexa35(element);
    put_frame(f, kind, bits);
    0
}

// The frame that four places of a step speak of. Values ask nothing of its number and its length field.
fn frame_of(frame: &[u64; 4]) -> frame_walks::FrameElement
    ensures { result ≡ frame_of frame.now }
{
    let at = frame[0];
    let value = frame[1];
    let len = frame[2];
    let mark = frame[3];
    let element = Klv {
        at: at as usize,
        value: value as usize,
        len: len as usize,
        size: 0,
        shortest: false,
    };
    let overlong = 0 < mark;
    frame_walks::FrameElement {
        number: 0,
        element,
        overlong,
    }
}

// The values of a frame that ARRI's walk gave; out says whether there are any.
#[unsafe(no_mangle)]
pub extern "C" fn brine_arri_values(
    s: &[u8],
    frame: &[u64; 4],
    out: &mut [u64; 1],
    kind: &mut [u64; 32],
    bits: &mut [u64; 32],
) -> u32
    ensures value { result ≡ 0 }
    ensures out_after { out.new ≡ found_places (values_of s.now (frame_of frame.now)) }
    ensures kind_after { kind.new ≡ kinds (value_slots (values_of s.now (frame_of frame.now))) }
    ensures bits_after { bits.new ≡ patterns (value_slots (values_of s.now (frame_of frame.now))) }
{
    let v = arri_values::values_of(s, frame_of(frame));
    put_values(v, kind, bits);
    match v {
        Some(_) => *out = [1],
        None => *out = [0],
    }
    0
}
