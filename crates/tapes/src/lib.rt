// One recorder's file, read up to its next frame: docs/RULES.md, "L14. Two recordings of one take". It is fed to ARRI's frame walk in pieces
// of at most 65,536 bytes. A frame's element is read again by itself, so that it need not stand whole in a piece. What goes wrong is
// said on standard error.
#![tactic(auto)]

ghost use Rattle.std.specs.Prelude.{◌≡◌, ◌-◌, ◌<◌, ◌≤◌, min, length, IfOk, MatchResult};
ghost use Rattle.std.specs.declared.ops.ControlFlow.TheVariants.{Break};
ghost use Rattle.io.specs.Counts.{IsPrefixLen};
ghost use Rattle.tapes.specs.Frames.{read_as};
ghost use Rattle.tapes.specs.Tapes.{unread_of, place_of, needed_of, WholeFed, ReadBy, Finds};

use fed_frames::{FrameAnswer, FrameState};
use fed_states::State;
use frame_walks::{Camera, FrameElement};
use std::fs::File;
use std::io;
use std::io::{Error, Print, Stderr};
use std::ops::ControlFlow;
use std::os::unix::fs::FileExt;
use streams::fail;
use take_frames::Recorded;
use takes::Stop;

// A recorder's file, none where it can't be opened: its walk, the bytes of it that are in the room, so many from a place on, and what
// the walk met where it stopped: nothing yet, or a frame, the file's end (none) or trouble.
#[derive(Drop)]
pub struct Tape {
    pub file: Option<File>,
    pub size: usize,
    pub walk: FrameState,
    pub from: usize,
    pub count: usize,
    pub met: Option<Result<Option<FrameElement>, Unreadable>>,
}

// A file that could not be read on. Standard error has said why.
#[derive(Clone, Copy, Debug, PartialEq, Eq)]
pub struct Unreadable;

// A file of so many bytes, of which none has been read.
pub fn unread(file: Option<File>, size: usize) -> Tape
    ensures { result ≡ unread_of file size }
{
    Tape {
        file,
        size,
        walk: fed_frames::open_end(Camera::Arri, size, 0),
        from: 0,
        count: 0,
        met: None,
    }
}

// The place of the next byte that a walk in this state is fed.
fn place(s: State) -> usize
    ensures { result ≡ place_of s }
{
    s.at.wrapping_add(s.have)
}

// How many bytes of a file to read from a place on.
fn wanted(size: usize, place: usize) -> usize
    ensures upper_bound { result ≤ 65536 }
    ensures value { result ≡ min (size - place) 65536 }
{
    size.saturating_sub(place).min(65536)
}

// The system's numbers for a file that is not open, and for a call that went well.
const NOT_OPEN: i32 = 9;

const WENT_WELL: i32 = 0;

// Reads n bytes from a place on, or fewer.
fn fetch(file: &Option<File>, place: usize, n: usize, room: &mut [u8]) -> io::Result<usize>
    requires { n ≤ length room.old }
    ensures { IfOk result (λ k. IsPrefixLen k room.new) }
{
    match file {
        Some(open) => open.read_at(&mut room[..n], place as u64),
        None => Err(Error::from_raw_os_error(NOT_OPEN)),
    }
}

// Says on standard error what failed, and why.
fn trouble(to: Stderr, what: &[u8], error: &Error) -> Unreadable {
    fail(to, what, error);
    Unreadable
}

// Reads from the place of the next byte on, and stops at the end. That nothing came of a read that went well is no trouble of the system's.
fn fill(
    err: Stderr,
    t: &mut Tape,
    buf: &mut [u8; 65536],
) -> ControlFlow<Result<Option<FrameElement>, Unreadable>>
    ensures { result ≡ Break (Ok None) → WholeFed t.new }
{
    let p = place(t.walk.state);
    let n = wanted(t.size, p);
    if n == 0 {
        return ControlFlow::Break(Ok(None));
    }
    let what = b"a file can't be read to its end";
    match fetch(&t.file, p, n, buf) {
        Ok(0) => ControlFlow::Break(Err(trouble(err, what, &Error::from_raw_os_error(WENT_WELL)))),
        Err(e) => ControlFlow::Break(Err(trouble(err, what, &e))),
        Ok(k) => {
            t.from = p;
            t.count = k;
            ControlFlow::Continue(())
        }
    }
}

// Feeds the bytes that are in the room, from the i-th on, and stops at a frame.
fn feed(
    err: Stderr,
    t: &mut Tape,
    buf: &[u8],
    i: usize,
) -> ControlFlow<Result<Option<FrameElement>, Unreadable>>
    ensures { result ≡ Break (Ok None) → WholeFed t.new }
{
    let piece = parts::part(buf, i, t.count.saturating_sub(i));
    // Never refused: no more is fed than the file's bytes.
    let Ok(f) = fed_frames::feed(t.walk, piece) else {
        let _ = err.write_all(b"a file's walk refuses its bytes\n");
        return ControlFlow::Break(Err(Unreadable));
    };
    t.walk = f.walk;
    match f.answer {
        FrameAnswer::Frame(k, _) => ControlFlow::Break(Ok(Some(k))),
        // Given never: ARRI's walk gives nothing beside frames.
        FrameAnswer::Nothing | FrameAnswer::Given(_, _) => ControlFlow::Continue(()),
    }
}

// Feeds what is in the room of the bytes that come next, or reads them.
fn turn(
    err: Stderr,
    t: &mut Tape,
    buf: &mut [u8; 65536],
) -> ControlFlow<Result<Option<FrameElement>, Unreadable>>
    ensures { result ≡ Break (Ok None) → WholeFed t.new }
{
    let p = place(t.walk.state);
    let i = p.saturating_sub(t.from);
    if (t.from <= p) & (i < t.count) {
        return feed(err, t, buf, i);
    }
    fill(err, t, buf)
}

// Takes turns up to the next frame, none where the file ends, and marks the file with what it met. A proved loop has to end: its turns
// are counted, to a number that no run comes to.
fn wind(
    err: Stderr,
    t: &mut Tape,
    buf: &mut [u8; 65536],
) -> Result<Option<FrameElement>, Unreadable>
    ensures shown { t.new.met ≡ Some result }
    ensures whole { result ≡ Ok None → WholeFed t.new }
{
    for _ in 0..u64::MAX {
        if let ControlFlow::Break(met) = turn(err, t, buf) {
            t.met = Some(met);
            return met;
        }
    }
    t.met = Some(Err(Unreadable));
    Err(Unreadable)
}

// What a recorder has of a frame, by its label and its element's bytes.
fn recorded(f: FrameElement, label: &[u8; 16], element: &[u8]) -> Recorded
    ensures { result ≡ read_as f label.now element.now }
{
    if f.overlong {
        return Recorded {
            overlong: true,
            values: None,
        };
    }
    Recorded {
        overlong: false,
        values: arri_values::in_element(label, element),
    }
}

// One side of a number: what the file has of its next frame, none where it ends.
#[derive(Drop)]
pub struct Found {
    pub tape: Tape,
    pub side: Result<Option<Stop>, Unreadable>,
}

// How many bytes of a frame's element are read.
fn needed(f: FrameElement) -> usize
    ensures upper_bound { result ≤ 8192 }
    ensures value { result ≡ needed_of f }
{
    if f.overlong {
        return 0;
    }
    f.element.len.min(8192)
}

// Reads the first n bytes of a frame's element, which are all or it fails. A read of none can't fail.
fn element_bytes(file: &Option<File>, place: usize, n: usize, room: &mut [u8]) -> io::Result<usize>
    requires { n ≤ length room.old }
    ensures { MatchResult result (λ k. (k ≡ n) × IsPrefixLen k room.new) (λ _. 0 < n) }
{
    if n == 0 {
        return Ok(0);
    }
    let k = fetch(file, place, n, room)?;
    if k == n {
        return Ok(k);
    }
    Err(Error::from_raw_os_error(WENT_WELL))
}

// Reads a frame's element. The walk stands behind it, and has its label yet.
#[tactic(auto, using(crate::proofs::Finding::cut))]
fn read(err: Stderr, t: Tape, f: FrameElement) -> Found
    ensures { ReadBy t f result }
{
    let w = t.walk;
    let s = w.state;
    let label = s.label;
    let k = f.element;
    let n = needed(f);
    let mut element = [0u8; 8192];
    match element_bytes(&t.file, k.value, n, &mut element) {
        Err(e) => Found {
            side: Err(trouble(err, b"a frame can't be read", &e)),
            tape: t,
        },
        Ok(have) => {
            let recorded = recorded(f, &label, &element[..have]);
            let next = place(s);
            Found {
                tape: t,
                side: Ok(Some(Stop { recorded, next })),
            }
        }
    }
}

// Reads up to the next frame: what a file has at a number.
#[tactic(auto, using(crate::proofs::Finding::ended, crate::proofs::Finding::troubled))]
pub fn next(err: Stderr, first: Tape, buf: &mut [u8; 65536]) -> Found
    ensures { Finds result }
{
    let mut t = first;
    match wind(err, &mut t, buf) {
        Ok(Some(f)) => read(err, t, f),
        Ok(None) => Found {
            tape: t,
            side: Ok(None),
        },
        Err(e) => Found {
            tape: t,
            side: Err(e),
        },
    }
}
