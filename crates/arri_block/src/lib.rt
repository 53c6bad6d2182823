// ARRI's 256 bytes in an ALEXA Mini's picture metadata element: docs/RULES.md, "Tables inside values". An element's items have a tag of
// 1 and a length of 2. In each 88h item a run is read; in each of its `LENS_UNIT_SET` sets the first item 8200h (2-byte
// lengths) gives its first 256 bytes, if it has them. The first such block is the answer. An item that isn't whole, met
// before one, or none at all: nothing.
#![tactic(auto)]

ghost use Rattle.std.specs.Prelude.{◌≡◌, ◌^◌};
ghost use Rattle.klv.specs.Item.{item};
ghost use Rattle.arri_block.specs.Block.{placed_at, first_bytes, in_set, in_run_item, in_run, in_element_item, block_of, bytes_of, Ends};

use items::{Coding, Local, Run};
use klv::Klv;
use parts::{one_at, two_at};

// The lens unit set (RDD 18), whose item 8200h is the frame's dynamic metadata.
const LENS_UNIT_SET: [u8; 16] =
    *b"\x06\x0e\x2b\x34\x02\x53\x01\x01\x0c\x02\x01\x01\x01\x01\x00\x00";

// A block of the bytes that start at a place, by its place in the whole.
fn placed_at(from: usize, b: Option<usize>) -> Option<usize>
    requires { Ends (placed_at from b) (2 ^ 64) }
    ensures { result ≡ placed_at from b }
{
    Some(from + b?)
}

// The first 256 bytes of an item's value, if it has them.
fn first_bytes(k: Klv) -> Option<usize>
    ensures { result ≡ first_bytes k }
{
    if k.len < 256 {
        return None;
    }
    Some(k.value)
}

// The block that a set's first item 8200h gives.
fn in_set(s: &[u8]) -> Option<usize>
    ensures { result ≡ in_set s.now }
{
    let mut items = Local { at: 0 };
    while let Some((k, next)) = items.step(s, Coding::TWO_TWO) {
        if two_at(s, k.at) == 0x8200 {
            return first_bytes(k);
        }
        items = next;
    }
    None
}

// The block that a run's item gives, where it is a lens unit set. The byte at 7 doesn't count, as in `same_label`; `agree_but` itself is
// called, since the compiler takes it in where a label is constant.
fn in_run_item(s: &[u8], k: Klv) -> Option<usize>
    ensures { result ≡ in_run_item s.now (item 16 s.now k) }
{
    if labels::agree_but(k.label(s), &LENS_UNIT_SET, 7, 7, 7) {
        placed_at(k.value, in_set(k.bytes(s)))
    } else {
        None
    }
}

// The first block in a run's lens unit sets.
fn in_run(s: &[u8]) -> Option<usize>
    ensures { result ≡ in_run s.now }
{
    let mut items = Run { at: 0 };
    while let Some((k, next)) = items.step(s) {
        if let Some(at) = in_run_item(s, k) {
            return Some(at);
        }
        items = next;
    }
    None
}

// The block that an element's item gives, where it is an 88h one.
fn in_element_item(s: &[u8], k: Klv) -> Option<usize>
    ensures { result ≡ in_element_item s.now (item 1 s.now k) }
{
    if one_at(s, k.at) == 0x88 {
        placed_at(k.value, in_run(k.bytes(s)))
    } else {
        None
    }
}

// Where ARRI's 256 bytes in an element start.
pub fn find(element: &[u8]) -> Option<usize>
    ensures { result ≡ block_of element.now }
{
    let mut items = Local { at: 0 };
    while let Some((k, next)) = items.step(element, Coding::ONE_TWO) {
        if let Some(at) = in_element_item(element, k) {
            return Some(at);
        }
        items = next;
    }
    None
}

// The block's bytes, a part of the element; none where there is no block.
pub fn bytes(element: &[u8], block: Option<usize>) -> &[u8]
    ensures { result.now ≡ bytes_of element.now block }
{
    match block {
        Some(p) => parts::part(element, p, 256),
        None => parts::part(element, 0, 0),
    }
}
