// Canon's sequence info: docs/RULES.md, "Tables inside values". Items with 2 and 2; tags 1501h and 1201h are signed and need exactly 8
// bytes, 3C0Ah and 4401h are the item's bytes; the last one stands.
#![tactic(auto)]

ghost use Rattle.std.specs.Prelude.{◌≡◌};
ghost use Rattle.canon_sequence.specs.Sequence.{position_after, identifier_after, fields_after, empty, sequence_of};

use items::{Coding, Local};
use klv::Klv;
use parts::{number, two_at};

// What a sequence info says: identifiers, each the value's bytes of an item, and places in the clip.
#[derive(Clone, Copy, Debug, Default, PartialEq, Eq)]
pub struct Sequence {
    pub instance_uid: Option<Klv>,
    pub package_uid: Option<Klv>,
    pub start_timecode: Option<i64>,
    pub start_position: Option<i64>,
}

// A position after an item with a tag and a value.
#[tactic(auto, unfolding(crate::specs::Sequence::position_after))]
fn position_after(value: &[u8], tag: u16, field: u16, old: Option<i64>) -> Option<i64>
    ensures { result ≡ position_after value.now tag field old }
{
    if tag != field || value.len() != 8 {
        return old;
    }
    Some(signed::signed64(number(value)))
}

// An identifier after an item with a tag.
#[tactic(auto, unfolding(crate::specs::Sequence::identifier_after))]
fn identifier_after(tag: u16, k: Klv, field: u16, old: Option<Klv>) -> Option<Klv>
    ensures { result ≡ identifier_after tag k field old }
{
    if tag == field { Some(k) } else { old }
}

// The fields after an item with a tag and a value.
#[tactic(auto, unfolding(crate::specs::Sequence::fields_after))]
fn fields_after(value: &[u8], tag: u16, k: Klv, q: Sequence) -> Sequence
    ensures { result ≡ fields_after value.now tag k q }
{
    Sequence {
        instance_uid: identifier_after(tag, k, 0x3c0a, q.instance_uid),
        package_uid: identifier_after(tag, k, 0x4401, q.package_uid),
        start_timecode: position_after(value, tag, 0x1501, q.start_timecode),
        start_position: position_after(value, tag, 0x1201, q.start_position),
    }
}

// The fields before the first item.
fn empty() -> Sequence
    ensures { result ≡ empty }
{
    Sequence::default()
}

// What a sequence info says.
pub fn read(s: &[u8]) -> Sequence
    ensures { result ≡ sequence_of s.now }
{
    let mut q = empty();
    let mut items = Local { at: 0 };
    while let Some((k, next)) = items.step(s, Coding::TWO_TWO) {
        q = fields_after(k.bytes(s), two_at(s, k.at), k, q);
        items = next;
    }
    q
}
