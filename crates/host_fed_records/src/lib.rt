// What a host links of the fed walker's lists: as many records of a piece as there is lent room for (include/brinethimble.h).
#![tactic(auto)]

ghost use Rattle.std.specs.Prelude.{◌≡◌, ◌+◌, ◌-◌, ◌*◌, ◌^◌, ◌≤◌, ◌<◌, length};
ghost use Rattle.std.proofs.lemmas.List.Edits.{sets};
ghost use Rattle.steps.specs.Told.{number};
ghost use Rattle.labels.specs.Label.{label_at};
ghost use Rattle.fed_bytes.specs.Feed.{took, feed_of};
ghost use Rattle.fed_bytes.proofs.Walking.{onward};
ghost use Rattle.fed_pieces.specs.Pieces.{records_of, end_of, Fits};
ghost use Rattle.host_records.specs.Batch.{places_each, record_put, records_put};
ghost use Rattle.host_fed_states.specs.Places.{state_of, seeking_of};
ghost use Rattle.host_fed_states.proofs.Values.{Tells};
ghost use Rattle.host_fed_records.specs.Many.{room, labels_put, many_state, many_places, Ended, Roomless};
ghost use Rattle.host_fed_records.specs.Begun.{Begun};

use fed::reach;
use fed_pieces::admit;
use host_fed_states::{
    Value, limit_of, put_behind, put_done, put_eight, put_flags, put_having, put_rest, put_state,
    starting, state_of, waited,
};
use host_numbers::mark;
use klv::Klv;
use std::ops::ControlFlow;
use walk::{Cursor, Step};

// How many places a record takes, and how many bytes its label.
const PLACES_EACH: usize = 6;

const LABEL: usize = 16;

// Where a search starts: the place of the stream, where walking last went on, and how many bytes were taken and records put.
#[derive(Clone, Copy, Debug, PartialEq, Eq)]
pub struct Start {
    pub at: usize,
    pub since: usize,
    pub taken: usize,
    pub count: usize,
}

// Puts a record's places.
fn put_record(records: &mut [u64], at: usize, k: Klv, passed: usize)
    requires { at + 6 ≤ length records.old }
    ensures { records.new ≡ record_put k passed at records.old }
{
    let shortest = mark(k.shortest);
    records[at] = k.at as u64;
    records[at + 1] = k.value as u64;
    records[at + 2] = k.len as u64;
    records[at + 3] = k.size as u64;
    records[at + 4] = shortest;
    records[at + 5] = passed as u64;
}

// The 16 bytes of the label at a place, where they are there: fed_states::label_at asks whether they are, at every record.
fn label_at(s: &[u8], at: usize) -> [u8; 16]
    requires { at + 16 ≤ length s.now }
    ensures { result ≡ label_at s.now at }
{
    let mut label = [0u8; 16];
    label.copy_from_slice(&s[at..at + 16]);
    label
}

// Puts a label.
fn put_label(labels: &mut [u8], at: usize, label: [u8; 16])
    requires { at + 16 ≤ length labels.old }
    ensures { labels.new ≡ sets labels.old at label }
{
    labels[at..at + 16].copy_from_slice(&label);
}

// Puts a record behind n others, and its label.
fn put(records: &mut [u64], labels: &mut [u8], n: usize, k: Klv, passed: usize, label: [u8; 16])
    requires places_each_in_bounds { places_each * n + places_each ≤ length records.old }
    requires n_in_bounds { 16 * n + 16 ≤ length labels.old }
    ensures records_after { records.new ≡ record_put k passed (places_each * n) records.old }
    ensures labels_after { labels.new ≡ sets labels.old (16 * n) label }
{
    put_record(records, PLACES_EACH * n, k, passed);
    put_label(labels, LABEL * n, label);
}

// A record, so much further on.
fn moved(k: Klv, by: usize) -> Klv
    requires at_bound { by + k.at < 2 ^ 64 }
    requires value_bound { by + k.value < 2 ^ 64 }
    ensures { result ≡ onward by k }
{
    Klv {
        at: by + k.at,
        value: by + k.value,
        ..k
    }
}

// Takes the bytes before a search by way of the state, and puts the record that they complete.
fn resume(
    state: &mut [u64; 10],
    piece: &[u8],
    records: &mut [u64],
    labels: &mut [u8],
    most: usize,
    out: &mut [u64; 2],
) -> ControlFlow<u32, Start>
    requires most_nonzero { 0 < most }
    requires most_in_bounds { places_each * most ≤ length records.old }
    requires most_in_bounds_2 { 16 * most ≤ length labels.old }
    ensures { Begun (state_of state.old) piece.now most result state.old records.old labels.old out.old state.new records.new labels.new out.new }
{
    let f = match reach(state_of(state), piece) {
        Ok(f) => f,
        Err(e) => return ControlFlow::Break(e.number()),
    };
    let st = f.state;
    let taken = f.taken;
    match f.found {
        Some((k, passed)) => {
            let label = st.label;
            put(records, labels, 0, k, passed, label);
            put_state(st, state);
            if (1 < most) & (taken < piece.len()) {
                return ControlFlow::Continue(Start {
                    at: st.at,
                    since: st.since,
                    taken,
                    count: 1,
                });
            }
            *out = [1, taken as u64];
            ControlFlow::Break(0)
        }
        None => {
            put_state(st, state);
            if taken < piece.len() {
                let at = st.at + st.have;
                return ControlFlow::Continue(Start {
                    at,
                    since: st.since,
                    taken,
                    count: 0,
                });
            }
            *out = [0, taken as u64];
            ControlFlow::Break(0)
        }
    }
}

// Takes a piece where a value is waited for: all of it, or up to the value's end, and puts its record. The places are put between the
// label's halves: the compiler makes one store of eight bytes, and none of sixteen in a row.
fn within(
    v: Value,
    state: &mut [u64; 10],
    piece: &[u8],
    records: &mut [u64],
    labels: &mut [u8],
    most: usize,
    out: &mut [u64; 2],
) -> ControlFlow<u32, Start>
    requires tells { Tells (state_of state.old) (length piece.now) v }
    requires most_nonzero { 0 < most }
    requires most_in_bounds { places_each * most ≤ length records.old }
    requires most_in_bounds_2 { 16 * most ≤ length labels.old }
    ensures { Begun (state_of state.old) piece.now most result state.old records.old labels.old out.old state.new records.new labels.new out.new }
{
    let have = state[4] as usize;
    let n = piece.len();
    let taken = v.due - have;
    if n < taken {
        *out = [0, n as u64];
        put_having(state, have + n);
        put_flags(state);
        return ControlFlow::Break(0);
    }
    let k = v.klv;
    let passed = k.at.saturating_sub(state[5] as usize);
    let label = &mut labels[..LABEL];
    put_eight(label, 0, state[6]);
    put_record(records, 0, k, passed);
    put_eight(label, 8, state[7]);
    if (1 < most) & (taken < n) {
        return ControlFlow::Continue(Start {
            at: v.next,
            since: v.next,
            taken,
            count: 1,
        });
    }
    *out = [1, taken as u64];
    put_done(state, v.next);
    put_flags(state);
    ControlFlow::Break(0)
}

// The first part of a call. Most end, or come to a search, without a state being made of the numbers.
fn begin(
    state: &mut [u64; 10],
    piece: &[u8],
    records: &mut [u64],
    labels: &mut [u8],
    most: usize,
    out: &mut [u64; 2],
) -> ControlFlow<u32, Start>
    requires most_nonzero { 0 < most }
    requires most_in_bounds { places_each * most ≤ length records.old }
    requires most_in_bounds_2 { 16 * most ≤ length labels.old }
    ensures { Begun (state_of state.old) piece.now most result state.old records.old labels.old out.old state.new records.new labels.new out.new }
{
    if let Some(v) = waited(state, piece.len()) {
        return within(v, state, piece, records, labels, most, out);
    }
    let b = starting(state, piece);
    if b.taken < piece.len() {
        let since = state[5] as usize;
        return ControlFlow::Continue(Start {
            at: b.at,
            since,
            taken: b.taken,
            count: 0,
        });
    }
    resume(state, piece, records, labels, most, out)
}

// Puts a record of bytes that come at a place of the stream behind n others, and its label.
fn put_next(
    records: &mut [u64],
    labels: &mut [u8],
    n: usize,
    tail: &[u8],
    k: Klv,
    here: usize,
    since: usize,
)
    requires places_each_in_bounds { places_each * n + places_each ≤ length records.old }
    requires n_in_bounds { 16 * n + 16 ≤ length labels.old }
    requires at_in_bounds { k.at + 16 ≤ length tail.now }
    requires at_bound { here + k.at < 2 ^ 64 }
    requires value_bound { here + k.value < 2 ^ 64 }
    ensures records_after { records.new ≡ record_put (onward here k) (here + k.at - since) (places_each * n) records.old }
    ensures labels_after { labels.new ≡ sets labels.old (16 * n) (label_at tail.now k.at) }
{
    let r = moved(k, here);
    let passed = r.at.saturating_sub(since);
    put(records, labels, n, r, passed, label_at(tail, k.at));
}

// Puts the records of a piece from i on, at a place of the stream where a search starts, behind n others and up to most. The rest of
// the piece is a buffer which the walk's own step reads: the last record's place has its label.
fn walk(
    here: usize,
    from: usize,
    piece: &[u8],
    i: usize,
    records: &mut [u64],
    labels: &mut [u8],
    n: usize,
    most: usize,
    state: &mut [u64; 10],
    out: &mut [u64; 2],
)
    requires fits { Fits piece.now (state_of state.old).limit (took (seeking_of (state_of state.old) here from) i) }
    requires i_in_bounds { i < length piece.now }
    requires n_lt_most { n < most }
    requires most_in_bounds { places_each * most ≤ length records.old }
    requires most_in_bounds_2 { 16 * most ≤ length labels.old }
    ensures { Ended piece.now most (took (seeking_of (state_of state.old) here from) i) n records.old labels.old records.new labels.new state.new out.new }
{
    let tail = &piece[i..];
    let limit = limit_of(state);
    let mut p = 0;
    let mut since = from;
    let mut m = n;
    loop {
        let cursor = Cursor { at: p, since: p };
        match cursor.arrive(tail, limit - here).unwrap() {
            Step::Rests(c) => {
                *out = [m as u64, piece.len() as u64];
                put_rest(state, here, since, tail, c.at);
                put_flags(state);
                return;
            }
            Step::Record(r, _, c) => {
                put_next(records, labels, m, tail, r, here, since);
                since = here + c.at;
                p = c.at;
                m += 1;
                if (m < most) & (p < tail.len()) {
                    continue;
                }
                *out = [m as u64, (i + p) as u64];
                put_behind(state, since, tail, r.at);
                put_flags(state);
                return;
            }
        }
    }
}

// A call with no room for a record: the piece is refused, or nothing of it is taken.
fn roomless(state: &mut [u64; 10], piece: &[u8], out: &mut [u64; 2]) -> u32
    ensures { Roomless (state_of state.old) piece.now state.old out.old result state.new out.new }
{
    let st = state_of(state);
    if let Err(e) = admit(st, piece.len()) {
        return e.number();
    }
    *out = [0, 0];
    put_state(st, state);
    0
}

// As many records of a piece as there is room for.
#[unsafe(no_mangle)]
pub extern "C" fn brine_feed_records(
    state: &mut [u64; 10],
    piece: &[u8],
    records: &mut [u64],
    labels: &mut [u8],
    out: &mut [u64; 2],
) -> u32
    ensures value { result ≡ number (feed_of (state_of state.old) piece.now) }
    ensures state_after { state.new ≡ many_state state.old (end_of (room records.old labels.old) (state_of state.old) piece.now) (number (feed_of (state_of state.old) piece.now)) }
    ensures records_after { records.new ≡ records_put (records_of (room records.old labels.old) (state_of state.old) piece.now) 0 records.old }
    ensures labels_after { labels.new ≡ labels_put (records_of (room records.old labels.old) (state_of state.old) piece.now) 0 labels.old }
    ensures out_after { out.new ≡ many_places out.old (records_of (room records.old labels.old) (state_of state.old) piece.now) (end_of (room records.old labels.old) (state_of state.old) piece.now) (number (feed_of (state_of state.old) piece.now)) }
{
    let most = (records.len() / PLACES_EACH).min(labels.len() / LABEL);
    if most == 0 {
        return roomless(state, piece, out);
    }
    match begin(state, piece, records, labels, most, out) {
        ControlFlow::Break(status) => status,
        ControlFlow::Continue(b) => {
            walk(
                b.at, b.since, piece, b.taken, records, labels, b.count, most, state, out,
            );
            0
        }
    }
}
