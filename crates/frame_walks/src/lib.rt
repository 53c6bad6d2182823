// Frame walks: docs/RULES.md, "Frame walks". Each has its own longest element and its own label: the three are one walk with
// other constants. A longer element takes its frame number and is marked over-long, and the walk goes on from its value. Sony's and
// ARRI's have arriving forms: "L13. Certain frames".
#![tactic(auto)]

ghost use Rattle.std.specs.Prelude.{◌≡◌, ◌+◌, ◌-◌, ◌≤◌, false};
ghost use Rattle.klv.specs.Item.{item};
ghost use Rattle.frame_walks.specs.Kinds.{sony_kind, arri_kind, canon_kind, kind_of, longest_of, goes_on_at};
ghost use Rattle.frame_walks.specs.Frames.{showing, record_on, beyond, frame_step, sony_step, sony_arrive, arri_step, arri_arrive, canon_step};
ghost use Rattle.frame_walks.specs.Told.{carried_by, place_at, told, said_as, looked_as};

use klv::Klv;
use std::ops::ControlFlow;
use walk::{Cursor, Step, WalkError, Way};

// What a record is to a frame walk.
#[derive(Clone, Copy, Debug, PartialEq, Eq)]
pub enum Kind {
    // A frame's element.
    Frame,
    // A value that is given beside the frames, without a number.
    Given,
    Other,
}

// Whose walk it is.
#[derive(Clone, Copy, Debug, PartialEq, Eq)]
pub enum Camera {
    Sony,
    Arri,
    Canon,
}

// A frame's element: the frame's number, the element, and whether it is longer than any that is read, so that it has no values.
#[derive(Clone, Copy, Debug, PartialEq, Eq)]
pub struct FrameElement {
    pub number: u64,
    pub element: Klv,
    pub overlong: bool,
}

// Where a frame walk stands, where walking last went on, and the next frame's number.
#[derive(Clone, Copy, Debug, PartialEq, Eq)]
pub struct Place {
    pub at: usize,
    pub since: usize,
    pub number: u64,
}

// Sony's walk.
#[derive(Clone, Copy, Debug, PartialEq, Eq)]
pub struct Sony {
    pub place: Place,
}

impl Sony {
    // An ST 436 element holds at most 65,535 lines of 14 + 348 bytes.
    pub const LONGEST: usize = 23_723_672;
    // `ANCILLARY`: all 16 bytes are compared.
    pub const ANCILLARY: [u8; 16] =
        *b"\x06\x0e\x2b\x34\x01\x02\x01\x01\x0d\x01\x03\x01\x17\x01\x02\x01";
}

// ARRI's walk.
#[derive(Clone, Copy, Debug, PartialEq, Eq)]
pub struct Arri {
    pub place: Place,
}

impl Arri {
    pub const LONGEST: usize = 8_192;
    // `PICTURE_METADATA`, as the same label: an ALEXA Mini's.
    pub const PICTURE_METADATA: [u8; 16] =
        *b"\x06\x0e\x2b\x34\x02\x43\x01\x01\x0d\x01\x03\x01\x04\x01\x03\x01";
    // `FRAME_DATA`, with the bytes 7, 13 and 15 free: an ALEXA 35's.
    pub const FRAME_DATA: [u8; 16] =
        *b"\x06\x0e\x2b\x34\x01\x02\x01\x01\x0d\x01\x03\x01\x17\x01\x0f\x00";
}

// Canon's walk is Sony's, and gives the values of two labels too.
#[derive(Clone, Copy, Debug, PartialEq, Eq)]
pub struct Canon {
    pub place: Place,
}

impl Canon {
    // The longest value that is given; a longer one is stepped over.
    pub const LONGEST_GIVEN: usize = 1_048_576;
    // `KEYS`, as same labels: a system item's package metadata set, and the stream file's sequence info.
    pub const PACKAGE_METADATA: [u8; 16] =
        *b"\x06\x0e\x2b\x34\x02\x43\x01\x01\x0d\x01\x03\x01\x04\x01\x02\x03";

    pub const SEQUENCE_INFO: [u8; 16] =
        *b"\x06\x0e\x2b\x34\x01\x01\x01\x0d\x0e\x15\x00\x00\x00\x01\x00\x00";
}

// What a label is to Sony's walk.
fn sony_kind(label: &[u8]) -> Kind
    ensures { result ≡ sony_kind label.now }
{
    if labels::agree_but(label, &Sony::ANCILLARY, 16, 16, 16) {
        return Kind::Frame;
    }
    Kind::Other
}

// What a label is to ARRI's walk.
fn arri_kind(label: &[u8]) -> Kind
    ensures { result ≡ arri_kind label.now }
{
    if labels::same_label(label, &Arri::PICTURE_METADATA) {
        return Kind::Frame;
    }
    if labels::agree_but(label, &Arri::FRAME_DATA, 7, 13, 15) {
        return Kind::Frame;
    }
    Kind::Other
}

// What a label with a value that long is to Canon's walk.
fn canon_kind(label: &[u8], len: usize) -> Kind
    ensures { result ≡ canon_kind label.now len }
{
    if Canon::LONGEST_GIVEN < len {
        return sony_kind(label);
    }
    if labels::same_label(label, &Canon::PACKAGE_METADATA) {
        return Kind::Given;
    }
    if labels::same_label(label, &Canon::SEQUENCE_INFO) {
        return Kind::Given;
    }
    sony_kind(label)
}

// What a label with a value that long is to a camera's walk.
pub fn kind_of(camera: Camera, label: &[u8], len: usize) -> Kind
    ensures { result ≡ kind_of camera label.now len }
{
    match camera {
        Camera::Sony => sony_kind(label),
        Camera::Arri => arri_kind(label),
        Camera::Canon => canon_kind(label, len),
    }
}

// The longest element that a camera's walk reads.
pub fn longest_of(camera: Camera) -> usize
    ensures { result ≡ longest_of camera }
{
    match camera {
        Camera::Sony => Sony::LONGEST,
        Camera::Arri => Arri::LONGEST,
        Camera::Canon => Sony::LONGEST,
    }
}

// What a step of a frame walk finds.
#[derive(Clone, Copy, Debug, PartialEq, Eq)]
pub enum FrameStep {
    // A frame, the bytes passed before it, and the place to go on from.
    Frame(FrameElement, usize, Place),
    // A value that is given beside the frames, Canon's alone, likewise.
    Given(Klv, usize, Place),
    // Neither: the finished walk is over; the arriving walk waits, and its step is to be made again from this place.
    Rests(Place),
}

// What a camera's walk makes, from a place on, of the next record, before which so many bytes were passed, and whose value ends
// at `end`: the step ends with what is found, or the record is passed and walking goes on at a place.
fn met(
    s: &[u8],
    camera: Camera,
    from: Place,
    k: Klv,
    passed: usize,
    end: usize,
) -> ControlFlow<FrameStep, Place>
    requires end_value { end ≡ k.value + k.len }
    requires passed_value { passed ≡ k.at - from.since }
    ensures { result ≡ said_as (goes_on_at camera (item 16 s.now k)) (showing camera (carried_by from) (item 16 s.now k)) }
{
    let number = from.number;
    match kind_of(camera, k.label(s), k.len) {
        Kind::Frame => {
            let after = std::num::wrapping_add_u64(number, 1);
            let longest = longest_of(camera);
            let overlong = longest < k.len;
            let next = if overlong { k.value } else { end };
            ControlFlow::Break(FrameStep::Frame(
                FrameElement {
                    number,
                    element: k,
                    overlong,
                },
                passed,
                Place {
                    at: next,
                    since: next,
                    number: after,
                },
            ))
        }
        Kind::Given => {
            let past = Place {
                at: end,
                since: end,
                number,
            };
            ControlFlow::Break(FrameStep::Given(k, passed, past))
        }
        Kind::Other => ControlFlow::Continue(Place {
            at: end,
            since: end,
            number,
        }),
    }
}

// What a camera's walk makes of the next record from a place on.
fn look(s: &[u8], way: Way, camera: Camera, from: Place) -> ControlFlow<FrameStep, Place>
    requires s_value { beyond way s.now ≡ false }
    requires since_le_at { from.since ≤ from.at }
    ensures { result ≡ looked_as camera from (record_on camera way s.now from.at) }
{
    let cursor = Cursor {
        at: from.at,
        since: from.since,
    };
    match cursor.on(s, way).unwrap() {
        Step::Record(k, passed, c) => met(s, camera, from, k, passed, c.at),
        Step::Rests(c) => ControlFlow::Break(FrameStep::Rests(Place {
            at: c.at,
            since: c.since,
            number: from.number,
        })),
    }
}

// The step of every frame walk: the next frame, or given value, from a place on.
fn seek(s: &[u8], way: Way, camera: Camera, from: Place) -> Result<FrameStep, WalkError>
    ensures { told (place_at from) result ≡ frame_step camera way s.now (place_at from) }
{
    way.bounds(s)?;
    let mut p = Place {
        since: from.since.min(from.at),
        ..from
    };
    loop {
        match look(s, way, camera, p) {
            ControlFlow::Break(found) => return Ok(found),
            ControlFlow::Continue(next) => p = next,
        }
    }
}

impl Sony {
    // The next frame before the end, with the place to go on from.
    pub fn step(self, s: &[u8], end: usize) -> Result<FrameStep, WalkError>
        ensures { told (place_at self.place) result ≡ sony_step s.now end (place_at self.place) }
    {
        seek(s, Way::Finished(end), Camera::Sony, self.place)
    }

    // The next frame that no later byte, within the limit, can unsay.
    pub fn arrive(self, a: &[u8], limit: usize) -> Result<FrameStep, WalkError>
        ensures { told (place_at self.place) result ≡ sony_arrive limit a.now (place_at self.place) }
    {
        seek(a, Way::Arriving(limit), Camera::Sony, self.place)
    }
}

impl Arri {
    // The next frame before the end, with the place to go on from.
    pub fn step(self, s: &[u8], end: usize) -> Result<FrameStep, WalkError>
        ensures { told (place_at self.place) result ≡ arri_step s.now end (place_at self.place) }
    {
        seek(s, Way::Finished(end), Camera::Arri, self.place)
    }

    // The next frame that no later byte, within the limit, can unsay.
    pub fn arrive(self, a: &[u8], limit: usize) -> Result<FrameStep, WalkError>
        ensures { told (place_at self.place) result ≡ arri_arrive limit a.now (place_at self.place) }
    {
        seek(a, Way::Arriving(limit), Camera::Arri, self.place)
    }
}

impl Canon {
    // The next frame or given value before the end, in file order, with the place to go on from.
    pub fn step(self, s: &[u8], end: usize) -> Result<FrameStep, WalkError>
        ensures { told (place_at self.place) result ≡ canon_step s.now end (place_at self.place) }
    {
        seek(s, Way::Finished(end), Camera::Canon, self.place)
    }
}
