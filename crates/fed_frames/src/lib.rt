// A camera's frames out of a fed walker: docs/RULES.md, "L13. Certain frames". A call takes the piece up to the byte that completes a
// frame, and runs through other records. After an over-long frame the walk stands at its value's start, and the bytes from there
// on come again.
#![tactic(auto)]

ghost use Rattle.std.specs.Prelude.{◌≡◌, ◌+◌, ◌≤◌, true, false, length};
ghost use Rattle.klv.specs.Item.{past};
ghost use Rattle.fed_bytes.specs.Feed.{took};
ghost use Rattle.fed_pieces.specs.Pieces.{Fits};
ghost use Rattle.frame_walks.specs.Frames.{carried, showing};
ghost use Rattle.fed_frames.specs.Frames.{opened_frames, feed_frames, close_frames};
ghost use Rattle.fed_frames.specs.Told.{feed_told, close_told, met_as, Leads};

use fed::feed as feed_records;
use fed_pieces::admit;
use fed_states::{FedError, Rest, State, close as close_records, gone_on};
use frame_walks::{Camera, FrameElement, Kind, kind_of, longest_of};
use klv::Klv;
use std::ops::ControlFlow;

#[derive(Clone, Copy, Debug, PartialEq, Eq)]
pub struct FrameState {
    // The walk of records.
    pub state: State,
    pub camera: Camera,
    // The next frame's number.
    pub number: u64,
    // How many bytes have come in all; where they come again, the walk of records stands before their end.
    pub high: usize,
}

// A camera's walk of at most so many bytes, whose first frame has this number.
pub fn open_limit(camera: Camera, limit: usize, number: u64) -> FrameState
    ensures { result ≡ opened_frames camera limit false number }
{
    FrameState {
        state: fed_states::open_limit(limit),
        camera,
        number,
        high: 0,
    }
}

// The same of exactly so many.
pub fn open_end(camera: Camera, end: usize, number: u64) -> FrameState
    ensures { result ≡ opened_frames camera end true number }
{
    FrameState {
        state: fed_states::open_end(end),
        camera,
        number,
        high: 0,
    }
}

// What a call answers.
#[derive(Clone, Copy, Debug, PartialEq, Eq)]
pub enum FrameAnswer {
    // All bytes are taken, and no frame is complete.
    Nothing,
    // The last byte taken completes this frame, before which so many bytes were passed.
    Frame(FrameElement, usize),
    // A value that is given beside the frames, Canon's alone, likewise.
    Given(Klv, usize),
}

// What feeding a piece comes to. The next byte is the one at the place where the walk of records then stands.
#[derive(Clone, Copy, Debug, PartialEq, Eq)]
pub struct FedFrames {
    pub walk: FrameState,
    pub taken: usize,
    pub answer: FrameAnswer,
}

// What a record is to a walk that stands behind it, and that last went on at `since`: the call's answer, or the record is run
// through.
fn met(w: FrameState, k: Klv, since: usize, taken: usize) -> ControlFlow<FedFrames, FedFrames>
    requires { w.state.at ≡ past k }
    ensures { result ≡ met_as w taken (showing w.camera (carried since w.number) (record { klv = k; key = w.state.label })) }
{
    let state = w.state;
    let label = state.label;
    let passed = k.at.saturating_sub(since);
    match kind_of(w.camera, &label, k.len) {
        Kind::Frame => {
            let overlong = longest_of(w.camera) < k.len;
            let next = if overlong { k.value } else { state.at };
            let frame = FrameElement {
                number: w.number,
                element: k,
                overlong,
            };
            ControlFlow::Break(FedFrames {
                walk: FrameState {
                    state: gone_on(state, next, label),
                    number: std::num::wrapping_add_u64(w.number, 1),
                    ..w
                },
                taken,
                answer: FrameAnswer::Frame(frame, passed),
            })
        }
        Kind::Given => ControlFlow::Break(FedFrames {
            walk: FrameState {
                state: gone_on(state, state.at, label),
                ..w
            },
            taken,
            answer: FrameAnswer::Given(k, passed),
        }),
        Kind::Other => ControlFlow::Continue(FedFrames {
            walk: w,
            taken,
            answer: FrameAnswer::Nothing,
        }),
    }
}

// What a walk makes of the bytes of a piece from i on, up to the one that completes a record. The piece started at the place `from`.
fn look(w: FrameState, piece: &[u8], i: usize, from: usize) -> ControlFlow<FedFrames, FedFrames>
    requires fits { Fits piece.now w.state.limit (took w.state i) }
    requires piece_bound { from + length piece.now ≤ w.state.limit }
    ensures { Leads w piece.now i from result }
{
    let f = feed_records(w.state, &piece[i..]).unwrap();
    let taken = i + f.taken;
    let walk = FrameState {
        state: f.state,
        high: w.high.max(from + taken),
        ..w
    };
    match f.found {
        Some((k, _)) => met(walk, k, w.state.since, taken),
        None => ControlFlow::Break(FedFrames {
            walk,
            taken,
            answer: FrameAnswer::Nothing,
        }),
    }
}

// Takes the piece up to the byte that completes a frame, else all of it.
pub fn feed(w: FrameState, piece: &[u8]) -> Result<FedFrames, FedError>
    ensures { feed_told w result ≡ feed_frames w piece.now }
{
    admit(w.state, piece.len())?;
    let from = w.state.at + w.state.have;
    let mut s = w.state;
    let mut i = 0;
    loop {
        match look(FrameState { state: s, ..w }, piece, i, from) {
            ControlFlow::Break(f) => return Ok(f),
            ControlFlow::Continue(f) => {
                s = f.walk.state;
                i = f.taken;
            }
        }
    }
}

// What closing comes to: the walk, and a rest where a value misses bytes, as of a walk of records.
#[derive(Clone, Copy, Debug, PartialEq, Eq)]
pub struct ShutFrames {
    pub walk: FrameState,
    pub rest: Option<Rest>,
}

// Closes the walk: refused before the bytes have come again up to where they had come.
pub fn close(w: FrameState) -> Result<ShutFrames, FedError>
    ensures { close_told w result ≡ close_frames w }
{
    if w.state.have < w.high.saturating_sub(w.state.at) {
        return Err(FedError::Closed);
    }
    let c = close_records(w.state)?;
    Ok(ShutFrames {
        walk: FrameState {
            state: c.state,
            ..w
        },
        rest: c.rest,
    })
}
