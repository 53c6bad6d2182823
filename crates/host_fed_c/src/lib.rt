// What a host links of host_fed: its calls, with the same clauses (library/exports).
#![tactic(auto)]

ghost use Rattle.std.specs.Prelude.{◌≡◌, true, false};
ghost use Rattle.steps.specs.Told.{number};
ghost use Rattle.fed_states.specs.State.{opened};
ghost use Rattle.fed_states.specs.Close.{close_of};
ghost use Rattle.fed_bytes.specs.Feed.{feed_of};
ghost use Rattle.host_fed_states.specs.Places.{state_of, state_places};
ghost use Rattle.host_fed.specs.Places.{state_after, label_after, feed_places, closed, close_places};

// A walk of at most so many bytes.
#[unsafe(no_mangle)]
pub extern "C" fn brine_fed_limit(limit: usize, state: &mut [u64; 10]) -> u32
    ensures value { result ≡ 0 }
    ensures state_after { state.new ≡ state_places (opened limit false) }
{
    host_fed::brine_fed_limit(limit, state)
}

// A walk of exactly so many bytes.
#[unsafe(no_mangle)]
pub extern "C" fn brine_fed_end(end: usize, state: &mut [u64; 10]) -> u32
    ensures value { result ≡ 0 }
    ensures state_after { state.new ≡ state_places (opened end true) }
{
    host_fed::brine_fed_end(end, state)
}

// Takes a piece up to the byte that completes a record, else all of it.
#[unsafe(no_mangle)]
pub extern "C" fn brine_feed(
    state: &mut [u64; 10],
    piece: &[u8],
    label: &mut [u8; 16],
    out: &mut [u64; 8],
) -> u32
    ensures value { result ≡ number (feed_of (state_of state.old) piece.now) }
    ensures state_after { state.new ≡ state_after state.old (feed_of (state_of state.old) piece.now) }
    ensures label_after { label.new ≡ label_after label.old (feed_of (state_of state.old) piece.now) }
    ensures out_after { out.new ≡ feed_places out.old (feed_of (state_of state.old) piece.now) }
{
    host_fed::brine_feed(state, piece, label, out)
}

// Closes the walk.
#[unsafe(no_mangle)]
pub extern "C" fn brine_close(state: &mut [u64; 10], out: &mut [u64; 3]) -> u32
    ensures value { result ≡ number (close_of (state_of state.old)) }
    ensures state_after { state.new ≡ closed state.old (close_of (state_of state.old)) }
    ensures out_after { out.new ≡ close_places out.old (close_of (state_of state.old)) }
{
    host_fed::brine_close(state, out)
}
