// What a host links of the fed walker: it lends the state, an array of numbers, and each call updates it (include/brinethimble.h).
// Nothing of a made-up array is trusted.
#![tactic(auto)]

ghost use Rattle.std.specs.Prelude.{◌≡◌, true, false, List, ℕ, ◌+◌, ◌-◌, ◌≤◌, length, drop};
ghost use Rattle.steps.specs.Told.{number};
ghost use Rattle.fed_states.specs.State.{opened, sought};
ghost use Rattle.fed_states.specs.Close.{close_of};
ghost use Rattle.fed_bytes.specs.Feed.{eats, feed_of};
ghost use Rattle.host_fed_states.specs.Places.{is_marked, state_of, state_places};
ghost use Rattle.host_fed_states.proofs.Values.{Tells, Begins};
ghost use Rattle.host_fed.specs.Places.{state_after, label_after, feed_places, Answers, closed, close_places};
ghost use Rattle.host_fed.specs.Begun.{Begun};

use fed::reach;
use fed_states::{close, label_at, open_end, open_limit};
use host_fed_states::{
    Search, Value, begun, eight_of, limit_of, marked, put_behind, put_done, put_eight, put_having,
    put_places, put_rest, put_state, starting, state_of, waited,
};
use host_numbers::mark;
use std::ops::ControlFlow;
use walk::{Cursor, Step};

// A walk of at most so many bytes.
#[unsafe(no_mangle)]
pub extern "C" fn brine_fed_limit(limit: usize, state: &mut [u64; 10]) -> u32
    ensures value { result ≡ 0 }
    ensures state_after { state.new ≡ state_places (opened limit false) }
{
    put_state(open_limit(limit), state);
    0
}

// A walk of exactly so many bytes.
#[unsafe(no_mangle)]
pub extern "C" fn brine_fed_end(end: usize, state: &mut [u64; 10]) -> u32
    ensures value { result ≡ 0 }
    ensures state_after { state.new ≡ state_places (opened end true) }
{
    put_state(open_end(end), state);
    0
}

// Takes the bytes before a search by way of the state: the call's status where it ends there, or where the search starts.
fn resume(
    state: &mut [u64; 10],
    piece: &[u8],
    label: &mut [u8; 16],
    out: &mut [u64; 8],
) -> ControlFlow<u32, Search>
    ensures { Begun (state_of state.old) piece.now result state.old label.old out.old state.new label.new out.new }
{
    let f = match reach(state_of(state), piece) {
        Ok(f) => f,
        Err(e) => return ControlFlow::Break(e.number()),
    };
    let st = f.state;
    let taken = f.taken;
    match f.found {
        Some((k, passed)) => {
            let shortest = mark(k.shortest);
            let key = st.label;
            *label = key;
            *out = [
                1,
                taken as u64,
                k.at as u64,
                k.value as u64,
                k.len as u64,
                k.size as u64,
                shortest,
                passed as u64,
            ];
            put_state(st, state);
            ControlFlow::Break(0)
        }
        None => {
            if taken < piece.len() {
                let at = st.at + st.have;
                put_state(st, state);
                return ControlFlow::Continue(Search { at, taken });
            }
            *out = [0, taken as u64, 0, 0, 0, 0, 0, 0];
            put_state(st, state);
            ControlFlow::Break(0)
        }
    }
}

// That the flags are 0 or 1 stands in the five contracts that follow, and in no type: a type around the lent array is no plainer, since
// each contract speaks of the array before and after the call, and would reach both through the type.

// Takes a piece where a value is waited for: all of it, or up to the value's end. The places are put between the label's halves: the
// compiler makes one store of eight bytes, and none of sixteen in a row.
fn within(v: Value, state: &mut [u64; 10], piece: &[u8], label: &mut [u8; 16], out: &mut [u64; 8])
    requires state_value { is_marked state.old ≡ true }
    requires tells { Tells (state_of state.old) (length piece.now) v }
    ensures { Answers 0 (feed_of (state_of state.old) piece.now) state.old label.old out.old state.new label.new out.new }
{
    let have = state[4] as usize;
    let n = piece.len();
    let left = v.due - have;
    if n < left {
        *out = [0, n as u64, 0, 0, 0, 0, 0, 0];
        put_having(state, have + n);
        return;
    }
    let k = v.klv;
    let shortest = mark(k.shortest);
    let passed = k.at.saturating_sub(state[5] as usize);
    put_eight(label, 0, state[6]);
    *out = [
        1,
        left as u64,
        k.at as u64,
        k.value as u64,
        k.len as u64,
        k.size as u64,
        shortest,
        passed as u64,
    ];
    put_eight(label, 8, state[7]);
    put_done(state, v.next);
}

// The first part of a call. Where the flags are 0 or 1, many pieces come to a search without a state being made of the numbers. Where a
// search is to start the flags are 0 or 1 in any case.
fn begin(
    state: &mut [u64; 10],
    piece: &[u8],
    label: &mut [u8; 16],
    out: &mut [u64; 8],
) -> ControlFlow<u32, Search>
    ensures { Begun (state_of state.old) piece.now result state.old label.old out.old state.new label.new out.new }
{
    if marked(state) {
        let b = starting(state, piece);
        if b.taken < piece.len() {
            return ControlFlow::Continue(b);
        }
    }
    resume(state, piece, label, out)
}

// Takes a piece from one of its bytes on, at a place of the stream where a search starts: it is a buffer that the walk's own step
// reads. The state is put before the label and the places: until something is put the compiler knows what it read of it.
fn walk(
    here: usize,
    piece: &[u8],
    i: usize,
    state: &mut [u64; 10],
    label: &mut [u8; 16],
    out: &mut [u64; 8],
)
    requires state_value { is_marked state.old ≡ true }
    requires i_in_bounds { i ≤ length piece.now }
    requires i_bound { here + (length piece.now - i) ≤ (state_of state.old).limit }
    ensures { (x : List ℕ) → Answers 0 (eats (sought (state_of state.old) here 0) (drop i piece.now) i) x label.old out.old state.new label.new out.new }
{
    let since = state[5] as usize;
    let limit = limit_of(state);
    let tail = &piece[i..];
    let start = Cursor { at: 0, since: 0 };
    match start.arrive(tail, limit - here).unwrap() {
        Step::Record(k, _, c) => {
            let at = here + k.at;
            let value = here + k.value;
            let next = here + c.at;
            let taken = i + c.at;
            let shortest = mark(k.shortest);
            let passed = at.saturating_sub(since);
            let key = label_at(tail, k.at);
            put_behind(state, next, tail, k.at);
            *label = key;
            *out = [
                1,
                taken as u64,
                at as u64,
                value as u64,
                k.len as u64,
                k.size as u64,
                shortest,
                passed as u64,
            ];
        }
        Step::Rests(c) => {
            put_rest(state, here, since, tail, c.at);
            *out = [0, piece.len() as u64, 0, 0, 0, 0, 0, 0];
        }
    }
}

// Takes any piece.
fn take(state: &mut [u64; 10], piece: &[u8], label: &mut [u8; 16], out: &mut [u64; 8]) -> u32
    ensures { Answers result (feed_of (state_of state.old) piece.now) state.old label.old out.old state.new label.new out.new }
{
    match begin(state, piece, label, out) {
        ControlFlow::Break(status) => status,
        ControlFlow::Continue(b) => {
            walk(b.at, piece, b.taken, state, label, out);
            0
        }
    }
}

// Takes a piece that starts with a key: all of it, or up to its value's end.
fn from_key(v: Value, state: &mut [u64; 10], piece: &[u8], label: &mut [u8; 16], out: &mut [u64; 8])
    requires state_value { is_marked state.old ≡ true }
    requires begins { Begins (state_of state.old) piece.now v }
    ensures { Answers 0 (feed_of (state_of state.old) piece.now) state.old label.old out.old state.new label.new out.new }
{
    let since = state[5] as usize;
    let n = piece.len();
    let k = v.klv;
    let first = eight_of(piece, 0);
    let last = eight_of(piece, 8);
    if n < v.due {
        let lead = u64::from(piece[16]);
        let eight = eight_of(piece, 17);
        put_places(state, k.at, n, since, first, last, lead, eight);
        *out = [0, n as u64, 0, 0, 0, 0, 0, 0];
        return;
    }
    let shortest = mark(k.shortest);
    let passed = k.at.saturating_sub(since);
    let key = label_at(piece, 0);
    put_places(state, v.next, 0, v.next, first, last, 0, 0);
    *label = key;
    *out = [
        1,
        v.due as u64,
        k.at as u64,
        k.value as u64,
        k.len as u64,
        k.size as u64,
        shortest,
        passed as u64,
    ];
}

// Takes a piece where no key has come whole. Most start with one. What is called from more than one place, as `take` is, the compiler
// does not take in; so what most pieces come to stays short.
fn before_key(state: &mut [u64; 10], piece: &[u8], label: &mut [u8; 16], out: &mut [u64; 8]) -> u32
    requires { is_marked state.old ≡ true }
    ensures { Answers result (feed_of (state_of state.old) piece.now) state.old label.old out.old state.new label.new out.new }
{
    let Some(v) = begun(state, piece) else {
        return take(state, piece, label, out);
    };
    from_key(v, state, piece, label, out);
    0
}

// Takes a piece behind a key. Most are of its value.
fn behind_key(state: &mut [u64; 10], piece: &[u8], label: &mut [u8; 16], out: &mut [u64; 8]) -> u32
    requires { is_marked state.old ≡ true }
    ensures { Answers result (feed_of (state_of state.old) piece.now) state.old label.old out.old state.new label.new out.new }
{
    let Some(v) = waited(state, piece.len()) else {
        return take(state, piece, label, out);
    };
    within(v, state, piece, label, out);
    0
}

// Takes a piece up to the byte that completes a record, else all of it.
#[unsafe(no_mangle)]
pub extern "C" fn brine_feed(
    state: &mut [u64; 10],
    piece: &[u8],
    label: &mut [u8; 16],
    out: &mut [u64; 8],
) -> u32
    ensures value { result ≡ number (feed_of (state_of state.old) piece.now) }
    ensures state_after { state.new ≡ state_after state.old (feed_of (state_of state.old) piece.now) }
    ensures label_after { label.new ≡ label_after label.old (feed_of (state_of state.old) piece.now) }
    ensures out_after { out.new ≡ feed_places out.old (feed_of (state_of state.old) piece.now) }
{
    if !marked(state) {
        return take(state, piece, label, out);
    }
    if state[4] < 25 {
        return before_key(state, piece, label, out);
    }
    behind_key(state, piece, label, out)
}

// Closes the walk.
#[unsafe(no_mangle)]
pub extern "C" fn brine_close(state: &mut [u64; 10], out: &mut [u64; 3]) -> u32
    ensures value { result ≡ number (close_of (state_of state.old)) }
    ensures state_after { state.new ≡ closed state.old (close_of (state_of state.old)) }
    ensures out_after { out.new ≡ close_places out.old (close_of (state_of state.old)) }
{
    let c = match close(state_of(state)) {
        Ok(c) => c,
        Err(e) => return e.number(),
    };
    *out = match c.rest {
        None => [1, 0, 0],
        Some(r) => [2, r.from as u64, r.end as u64],
    };
    put_state(c.state, state);
    0
}
