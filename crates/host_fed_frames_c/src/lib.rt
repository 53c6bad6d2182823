// What a host links of host_fed_frames: its calls, with the same clauses (library/exports).
#![tactic(auto)]

ghost use Rattle.std.specs.Prelude.{◌≡◌, true, false};
ghost use Rattle.steps.specs.Told.{number};
ghost use Rattle.frame_walks.specs.declared.Camera.TheVariants as camera;
ghost use Rattle.fed_frames.specs.Frames.{opened_frames, feed_frames, close_frames};
ghost use Rattle.host_fed_frames.specs.Places.{walk_of, walk_places, walk_after, label_after, feed_places, closed, close_places};

// Sony's walk of at most so many bytes.
#[unsafe(no_mangle)]
pub extern "C" fn brine_fed_sony_limit(limit: usize, first: u64, state: &mut [u64; 13]) -> u32
    ensures value { result ≡ 0 }
    ensures state_after { state.new ≡ walk_places (opened_frames camera.Sony limit false first) }
{
    host_fed_frames::brine_fed_sony_limit(limit, first, state)
}

// Sony's walk of exactly so many bytes.
#[unsafe(no_mangle)]
pub extern "C" fn brine_fed_sony_end(end: usize, first: u64, state: &mut [u64; 13]) -> u32
    ensures value { result ≡ 0 }
    ensures state_after { state.new ≡ walk_places (opened_frames camera.Sony end true first) }
{
    host_fed_frames::brine_fed_sony_end(end, first, state)
}

// ARRI's walk of at most so many bytes.
#[unsafe(no_mangle)]
pub extern "C" fn brine_fed_arri_limit(limit: usize, first: u64, state: &mut [u64; 13]) -> u32
    ensures value { result ≡ 0 }
    ensures state_after { state.new ≡ walk_places (opened_frames camera.Arri limit false first) }
{
    host_fed_frames::brine_fed_arri_limit(limit, first, state)
}

// ARRI's walk of exactly so many bytes.
#[unsafe(no_mangle)]
pub extern "C" fn brine_fed_arri_end(end: usize, first: u64, state: &mut [u64; 13]) -> u32
    ensures value { result ≡ 0 }
    ensures state_after { state.new ≡ walk_places (opened_frames camera.Arri end true first) }
{
    host_fed_frames::brine_fed_arri_end(end, first, state)
}

// Takes a piece up to the byte that completes a frame, else all of it.
#[unsafe(no_mangle)]
pub extern "C" fn brine_feed_frame(
    state: &mut [u64; 13],
    piece: &[u8],
    label: &mut [u8; 16],
    out: &mut [u64; 9],
) -> u32
    ensures value { result ≡ number (feed_frames (walk_of state.old) piece.now) }
    ensures state_after { state.new ≡ walk_after state.old (feed_frames (walk_of state.old) piece.now) }
    ensures label_after { label.new ≡ label_after label.old (feed_frames (walk_of state.old) piece.now) }
    ensures out_after { out.new ≡ feed_places out.old (feed_frames (walk_of state.old) piece.now) }
{
    host_fed_frames::brine_feed_frame(state, piece, label, out)
}

// Closes the walk.
#[unsafe(no_mangle)]
pub extern "C" fn brine_close_frames(state: &mut [u64; 13], out: &mut [u64; 4]) -> u32
    ensures value { result ≡ number (close_frames (walk_of state.old)) }
    ensures state_after { state.new ≡ closed state.old (close_frames (walk_of state.old)) }
    ensures out_after { out.new ≡ close_places out.old (close_frames (walk_of state.old)) }
{
    host_fed_frames::brine_close_frames(state, out)
}
