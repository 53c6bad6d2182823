// Canon's package sets: docs/RULES.md, "Tables inside values". A package set's items have a tag of 1 and a length of 2, up to the first
// not whole; each `PRIVATE_CAMERA_METADATA` value in an 88h item's run is answered in turn.
#![tactic(auto)]

ghost use Rattle.std.specs.Prelude.{◌≡◌, ◌≤◌, []};
ghost use Rattle.canon_sets.specs.Package.{values_from, in_run};
ghost use Rattle.canon_sets.specs.Told.{told, first_of, Turned};

use items::{Coding, Local, Run};
use klv::Klv;

// The packs of a camera.
pub const PRIVATE_CAMERA_METADATA: [u8; 16] =
    *b"\x06\x0e\x2b\x34\x01\x01\x01\x0d\x0e\x15\x00\x01\x00\x01\x00\x00";

// What a turn at a cursor finds: three cases, where an Option or a Result has two.
#[derive(Clone, Copy, Debug, PartialEq, Eq)]
enum Turn {
    // A value, and where its run goes on.
    Value(Klv, usize),
    // Another cursor with the same values.
    On(usize, usize),
    // No whole item is left.
    Over,
}

// The item that follows a run that is over.
fn next_item(s: &[u8], from: usize, end: usize) -> Turn
    requires { (from ≤ end) × (in_run s.now from end ≡ []) }
    ensures { Turned s.now from end result }
{
    let Some((k, next)) = (Local { at: end }).step(s, Coding::ONE_TWO) else {
        return Turn::Over;
    };
    if parts::one_at(s, k.at) == 0x88 {
        return Turn::On(k.value, next.at);
    }
    Turn::On(next.at, next.at)
}

// A turn at a cursor: the KLV that its run goes on with.
fn turn_at(s: &[u8], from: usize, end: usize) -> Turn
    requires { from ≤ end }
    ensures { Turned s.now from end result }
{
    let run = parts::part(s, 0, end);
    let Some((k, next)) = (Run { at: from }).step(run) else {
        return next_item(s, from, end);
    };
    if labels::same_label(k.label(run), &PRIVATE_CAMERA_METADATA) {
        return Turn::Value(k, next.at);
    }
    Turn::On(next.at, end)
}

// Where a package set is read: the place in an item's run, and where that ends and the next item starts. It begins with 0 and 0.
#[derive(Clone, Copy, Debug, Default, PartialEq, Eq)]
pub struct Package {
    pub from: usize,
    pub end: usize,
}

impl Package {
    // The next Private Camera Metadata of a package set, and the cursor past it.
    pub fn step(self, s: &[u8]) -> Option<(Klv, Package)>
        ensures { told self.from result ≡ first_of self.from (values_from s.now self.from self.end) }
    {
        let mut end = self.end;
        let mut from = self.from.min(end);
        // A match of three cases, which a `while let` doesn't have.
        loop {
            match turn_at(s, from, end) {
                Turn::Value(k, next) => return Some((k, Package { from: next, end })),
                Turn::Over => return None,
                Turn::On(f, e) => {
                    from = f;
                    end = e;
                }
            }
        }
    }
}
