// What a host links of the fed frame walks: it lends the state, an array of numbers, and each call updates it
// (include/brinethimble.h). Nothing of a made-up array is trusted.
#![tactic(auto)]

ghost use Rattle.std.specs.Prelude.{◌≡◌, true, false};
ghost use Rattle.steps.specs.Told.{number};
ghost use Rattle.frame_walks.specs.declared.Camera.TheVariants as camera;
ghost use Rattle.fed_frames.specs.Frames.{opened_frames, feed_frames, close_frames};
ghost use Rattle.host_fed_frames.specs.Places.{camera_of, camera_place, walk_of, walk_places, walk_after, label_after, feed_places, closed, close_places};

use fed_frames::{FrameAnswer, FrameState, close, feed, open_end, open_limit};
use frame_walks::Camera;
use host_fed_states::{put_state, state_of};
use host_numbers::mark;

// The camera that a place stands for.
fn camera_of(n: u64) -> Camera
    ensures { result ≡ camera_of n }
{
    if n == 0 {
        return Camera::Sony;
    }
    Camera::Arri
}

// The place of a camera.
fn camera_place(c: Camera) -> u64
    ensures { result ≡ camera_place c }
{
    match c {
        Camera::Sony => 0,
        Camera::Arri => 1,
        Camera::Canon => 1,
    }
}

// The walk that a host's array is.
fn walk_of(s: &[u64; 13]) -> FrameState
    ensures { result ≡ walk_of s.now }
{
    let ten = [s[0], s[1], s[2], s[3], s[4], s[5], s[6], s[7], s[8], s[9]];
    FrameState {
        state: state_of(&ten),
        camera: camera_of(s[10]),
        number: s[11],
        high: s[12] as usize,
    }
}

// Puts a walk.
fn put_walk(w: FrameState, s: &mut [u64; 13])
    ensures { s.new ≡ walk_places w }
{
    let mut ten = [0u64; 10];
    put_state(w.state, &mut ten);
    let c = w.camera;
    let place = camera_place(c);
    *s = [
        ten[0],
        ten[1],
        ten[2],
        ten[3],
        ten[4],
        ten[5],
        ten[6],
        ten[7],
        ten[8],
        ten[9],
        place,
        w.number,
        w.high as u64,
    ];
}

// Sony's walk of at most so many bytes.
#[unsafe(no_mangle)]
pub extern "C" fn brine_fed_sony_limit(limit: usize, first: u64, state: &mut [u64; 13]) -> u32
    ensures value { result ≡ 0 }
    ensures state_after { state.new ≡ walk_places (opened_frames camera.Sony limit false first) }
{
    put_walk(open_limit(Camera::Sony, limit, first), state);
    0
}

// Sony's walk of exactly so many bytes.
#[unsafe(no_mangle)]
pub extern "C" fn brine_fed_sony_end(end: usize, first: u64, state: &mut [u64; 13]) -> u32
    ensures value { result ≡ 0 }
    ensures state_after { state.new ≡ walk_places (opened_frames camera.Sony end true first) }
{
    put_walk(open_end(Camera::Sony, end, first), state);
    0
}

// ARRI's walk of at most so many bytes.
#[unsafe(no_mangle)]
pub extern "C" fn brine_fed_arri_limit(limit: usize, first: u64, state: &mut [u64; 13]) -> u32
    ensures value { result ≡ 0 }
    ensures state_after { state.new ≡ walk_places (opened_frames camera.Arri limit false first) }
{
    put_walk(open_limit(Camera::Arri, limit, first), state);
    0
}

// ARRI's walk of exactly so many bytes.
#[unsafe(no_mangle)]
pub extern "C" fn brine_fed_arri_end(end: usize, first: u64, state: &mut [u64; 13]) -> u32
    ensures value { result ≡ 0 }
    ensures state_after { state.new ≡ walk_places (opened_frames camera.Arri end true first) }
{
    put_walk(open_end(Camera::Arri, end, first), state);
    0
}

// Takes a piece up to the byte that completes a frame, else all of it.
#[unsafe(no_mangle)]
pub extern "C" fn brine_feed_frame(
    state: &mut [u64; 13],
    piece: &[u8],
    label: &mut [u8; 16],
    out: &mut [u64; 9],
) -> u32
    ensures value { result ≡ number (feed_frames (walk_of state.old) piece.now) }
    ensures state_after { state.new ≡ walk_after state.old (feed_frames (walk_of state.old) piece.now) }
    ensures label_after { label.new ≡ label_after label.old (feed_frames (walk_of state.old) piece.now) }
    ensures out_after { out.new ≡ feed_places out.old (feed_frames (walk_of state.old) piece.now) }
{
    let f = match feed(walk_of(state), piece) {
        Ok(f) => f,
        Err(e) => return e.number(),
    };
    let w = f.walk;
    let st = w.state;
    let key = st.label;
    match f.answer {
        FrameAnswer::Frame(e, passed) => {
            let k = e.element;
            let overlong = mark(e.overlong);
            *label = key;
            *out = [
                1,
                f.taken as u64,
                e.number,
                k.at as u64,
                k.value as u64,
                k.len as u64,
                overlong,
                passed as u64,
                st.at as u64,
            ];
            put_walk(w, state);
            0
        }
        FrameAnswer::Given(k, passed) => {
            *label = key;
            *out = [
                2,
                f.taken as u64,
                0,
                k.at as u64,
                k.value as u64,
                k.len as u64,
                0,
                passed as u64,
                st.at as u64,
            ];
            put_walk(w, state);
            0
        }
        FrameAnswer::Nothing => {
            *out = [0, f.taken as u64, 0, 0, 0, 0, 0, 0, 0];
            put_walk(w, state);
            0
        }
    }
}

// Closes the walk.
#[unsafe(no_mangle)]
pub extern "C" fn brine_close_frames(state: &mut [u64; 13], out: &mut [u64; 4]) -> u32
    ensures value { result ≡ number (close_frames (walk_of state.old)) }
    ensures state_after { state.new ≡ closed state.old (close_frames (walk_of state.old)) }
    ensures out_after { out.new ≡ close_places out.old (close_frames (walk_of state.old)) }
{
    let c = match close(walk_of(state)) {
        Ok(c) => c,
        Err(e) => return e.number(),
    };
    let w = c.walk;
    *out = match c.rest {
        None => [1, 0, 0, w.number],
        Some(r) => [2, r.from as u64, r.end as u64, w.number],
    };
    put_walk(w, state);
    0
}
