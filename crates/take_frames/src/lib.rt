// Two recorders' frames of one number, compared: docs/RULES.md, "L14. Two recordings of one take". Values are compared field by
// field; values against none, or a mark on one side, are one difference.
#![tactic(auto)]

ghost use Rattle.std.specs.Prelude.{◌≡◌};
ghost use Rattle.take_frames.specs.Compared.{of_mask, values_compared, compared};

use frame_values::Frame;

#[derive(Clone, Copy, Debug, PartialEq, Eq)]
pub enum Recorder {
    Main,
    Backup,
}

// The fields that differ, bit k for field k of the header's 19, and the values of both sides.
#[derive(Clone, Copy, Debug, PartialEq)]
pub struct Both {
    pub fields: u32,
    pub main: Frame,
    pub backup: Frame,
}

// What differs at a number.
#[derive(Clone, Copy, Debug, PartialEq)]
pub enum Kind {
    // Fields of the values that both have.
    Fields(Both),
    // This one has values, the other has none; no mark is there.
    Values(Recorder),
    // This one is marked over-long, the other isn't.
    Overlong(Recorder),
    // Only this one has a frame of this number.
    Only(Recorder),
}

// What a recorder has of a frame: its mark and its values. They stand side by side, since `compare` promises an answer on a marked
// frame with values too.
#[derive(Clone, Copy, Debug, PartialEq)]
pub struct Recorded {
    pub overlong: bool,
    pub values: Option<Frame>,
}

// The fields that differ, if any does.
fn of_mask(fields: u32, main: Frame, backup: Frame) -> Option<Kind>
    ensures { result ≡ of_mask fields main backup }
{
    if fields == 0 {
        return None;
    }
    Some(Kind::Fields(Both {
        fields,
        main,
        backup,
    }))
}

// Values against values field by field; values against none are one difference.
fn values_compared(v: Option<Frame>, w: Option<Frame>) -> Option<Kind>
    ensures { result ≡ values_compared v w }
{
    match (v, w) {
        (Some(f), Some(g)) => of_mask(frame_differences::fields(f, g), f, g),
        (Some(_), None) => Some(Kind::Values(Recorder::Main)),
        (None, Some(_)) => Some(Kind::Values(Recorder::Backup)),
        (None, None) => None,
    }
}

// What differs between two of one number. A mark on one side is one difference; marked on both sides, they are the same.
pub fn compare(x: Recorded, y: Recorded) -> Option<Kind>
    ensures { result ≡ compared x y }
{
    match (x.overlong, y.overlong) {
        (true, true) => None,
        (true, false) => Some(Kind::Overlong(Recorder::Main)),
        (false, true) => Some(Kind::Overlong(Recorder::Backup)),
        (false, false) => values_compared(x.values, y.values),
    }
}
