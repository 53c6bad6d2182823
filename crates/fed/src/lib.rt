// The fed walker: docs/RULES.md, "L2. A walker fed from the socket".
#![tactic(auto)]

ghost use Rattle.std.specs.Prelude.{◌≡◌, false, ◌+◌, ◌-◌, ◌≤◌, ◌<◌, max, length, get_or, drop};
ghost use Rattle.fed_states.specs.State.{sought, length_of};
ghost use Rattle.fed_bytes.specs.Eat.{turn_of, turned};
ghost use Rattle.fed_bytes.specs.Feed.{took, eats, feed_of};
ghost use Rattle.fed_bytes.specs.Fill.{filled, kept_from};
ghost use Rattle.fed.specs.Told.{eaten_told, fed_told, feed_told};
ghost use Rattle.fed.specs.Parts.{starts_of, reach_of, breaks_of, searches_of, having, due_of, rest_of, Bitten};
ghost use Rattle.steps.specs.Told.{nothing};

use fed_states::{FedError, State, gone_on, label_at, length_of, sought, sound};
use klv::Klv;
use labels::KEY_START;
use lengths::{Field, NoLength};
use walk::{Cursor, Step};

// What feeding a piece comes to: the state, how many bytes were taken, and the record that the last of them completes, with the
// bytes passed before it. Its label is the state's.
#[derive(Clone, Copy, Debug, PartialEq, Eq)]
pub struct Fed {
    pub state: State,
    pub taken: usize,
    pub found: Option<(Klv, usize)>,
}

// What a byte comes to.
#[derive(Clone, Copy, Debug, PartialEq, Eq)]
pub struct Eaten {
    pub state: State,
    pub found: Option<(Klv, usize)>,
}

// Whether a search for a key starts at this byte: none of it has come, or the byte breaks it off.
fn starts(have: usize, b: u8) -> bool
    ensures { result ≡ starts_of have b }
{
    if have == 0 {
        return true;
    }
    if 4 <= have {
        return false;
    }
    b != KEY_START[have]
}

// How many bytes of a piece come before one at which a search starts: all of them where a key's start comes whole before it.
fn breaks(have: usize, piece: &[u8]) -> usize
    ensures { result ≡ breaks_of have piece.now }
{
    for i in 0..piece.len() {
        if 4 <= have + i {
            return piece.len();
        }
        if starts(have + i, piece[i]) {
            return i;
        }
    }
    piece.len()
}

// The same of a piece that may come: all of it where it may not, or the walk is closed.
pub fn searches(live: bool, limit: usize, at: usize, have: usize, piece: &[u8]) -> usize
    ensures { result ≡ searches_of live limit at have piece.now }
{
    if !live {
        return piece.len();
    }
    if limit < at {
        return piece.len();
    }
    let room = limit - at;
    if room < have {
        return piece.len();
    }
    if room - have < piece.len() {
        return piece.len();
    }
    breaks(have, piece)
}

// A state with so many bytes of a piece more, which are kept: of a label, and of the nine bytes behind it.
fn fill(st: State, piece: &[u8], i: usize, m: usize) -> State
    requires m_in_bounds { i + m ≤ length piece.now }
    requires m_bound { m ≤ 25 - st.have }
    ensures { result ≡ filled st piece.now i m }
{
    let have = st.have;
    let mut label = st.label;
    let mut ber = st.ber;
    for n in 0..m {
        let at = have + n;
        if at < 16 {
            label[at] = piece[i + n];
        } else {
            ber[at - 16] = piece[i + n];
        }
    }
    State {
        have: have + m,
        label,
        ber,
        ..st
    }
}

// A byte of which nothing comes.
fn silent(st: State) -> Eaten
    ensures { eaten_told result ≡ nothing st }
{
    Eaten {
        state: st,
        found: None,
    }
}

// Rules 3 and 4 at the key's place, with the bytes that have come.
fn turn(st: State) -> Eaten
    requires have_bound { st.at + st.have ≤ st.limit }
    requires le_have { 17 ≤ st.have }
    ensures { eaten_told result ≡ turned st (turn_of st) }
{
    let at = st.at;
    let l = length_of(st);
    let Ok(f) = l else {
        if l == Err(NoLength::Cut) {
            return silent(st);
        }
        let next = at + 17;
        return silent(sought(st, next, 0));
    };
    let n = f.value;
    let v = at + 16 + f.size;
    if n <= (at + st.have - v) as u64 {
        let len = n as usize;
        let next = v + len;
        let label = st.label;
        let k = Klv {
            at,
            value: v,
            len,
            size: f.size,
            shortest: f.shortest,
        };
        return Eaten {
            state: gone_on(st, next, label),
            found: Some((k, at.saturating_sub(st.since))),
        };
    }
    if n <= (st.limit - v) as u64 {
        return silent(st);
    }
    silent(sought(st, v, 0))
}

// All bytes of a piece taken, of which nothing comes.
fn quiet(st: State, have: usize, taken: usize) -> Fed
    ensures { fed_told result ≡ nothing (took (having st have) taken) }
{
    Fed {
        state: State { have, ..st },
        taken,
        found: None,
    }
}

// With how many bytes from the key on something comes of its length.
fn due(st: State, l: Result<Field, NoLength>) -> usize
    requires have_bound { st.at + st.have ≤ st.limit }
    requires l_value { l ≡ length_of st }
    ensures { result ≡ due_of st l }
{
    let Ok(f) = l else {
        return if l == Err(NoLength::Cut) { 0 } else { 17 };
    };
    let size = 16 + f.size;
    if f.value <= (st.limit - (st.at + size)) as u64 {
        return size + f.value as usize;
    }
    size
}

// Takes the bytes behind a key's start at once, up to the one of which something comes.
fn bite(st: State, piece: &[u8], i: usize) -> Fed
    requires i_in_bounds { i < length piece.now }
    requires i_bound { st.at + st.have + (length piece.now - i) ≤ st.limit }
    requires le_have { 4 ≤ st.have }
    ensures { Bitten st piece.now i result }
{
    let have = st.have;
    let more = piece.len() - i;
    let mut s = fill(st, piece, i, 25usize.saturating_sub(have).min(more));
    let l = length_of(s);
    if l == Err(NoLength::Cut) {
        return quiet(s, have + more, piece.len());
    }
    let e = due(s, l).max(have + 1);
    if have + more < e {
        return quiet(s, have + more, piece.len());
    }
    s.have = e;
    let r = turn(s);
    Fed {
        state: r.state,
        taken: i + (e - have),
        found: r.found,
    }
}

// Takes the next byte of a key's start, or the bytes behind it.
fn next(st: State, piece: &[u8], i: usize) -> Fed
    requires i_in_bounds { i < length piece.now }
    requires i_bound { st.at + st.have + (length piece.now - i) ≤ st.limit }
    requires i_value { starts_of st.have (get_or piece.now i 0) ≡ false }
    ensures { Bitten st piece.now i result }
{
    if st.have < 4 {
        return Fed {
            state: sought(st, st.at, st.have + 1),
            taken: i + 1,
            found: None,
        };
    }
    bite(st, piece, i)
}

// What is kept of bytes that come at a place of the stream, where the walk waits at w.
fn keep(st: State, here: usize, s: &[u8], w: usize) -> State
    requires w_in_bounds { w ≤ length s.now }
    requires s_bound { here + length s.now ≤ st.limit }
    ensures { result ≡ kept_from st here s.now w }
{
    let r = search::next_key(s, s.len(), w);
    if r < s.len() {
        let size = s.len() - r;
        let mut k = fill(sought(st, here + r, 4), s, r + 4, size.min(25) - 4);
        k.have = size;
        return k;
    }
    let q = search::wait_from(s, w);
    sought(st, here + q, s.len() - q)
}

// What is kept of the bytes behind a state, where the walk waits at w: the state itself where they may not come.
pub fn rest(st: State, s: &[u8], w: usize) -> State
    ensures { result ≡ rest_of st s.now w }
{
    if st.limit < st.at {
        return st;
    }
    if st.limit - st.at < s.len() {
        return st;
    }
    if s.len() < w {
        return st;
    }
    keep(st, st.at, s, w)
}

// The bytes of a piece from one on at which a search starts: the piece itself is a buffer, and the walk's step reads it.
fn walk_on(st: State, piece: &[u8], i: usize) -> Fed
    requires i_in_bounds { i ≤ length piece.now }
    requires i_bound { st.at + st.have + (length piece.now - i) ≤ st.limit }
    ensures { fed_told result ≡ eats (sought st (st.at + st.have) 0) (drop i piece.now) i }
{
    let here = st.at + st.have;
    let tail = &piece[i..];
    let start = Cursor { at: 0, since: 0 };
    match start.arrive(tail, st.limit - here).unwrap() {
        Step::Record(k, _, c) => {
            let at = here + k.at;
            let value = here + k.value;
            let next = here + c.at;
            let record = Klv { at, value, ..k };
            Fed {
                state: gone_on(st, next, label_at(tail, k.at)),
                taken: i + c.at,
                found: Some((record, at.saturating_sub(st.since))),
            }
        }
        Step::Rests(c) => Fed {
            state: keep(st, here, tail, c.at),
            taken: piece.len(),
            found: None,
        },
    }
}

// Takes the piece up to the byte that completes a record, or before which a search starts.
pub fn reach(st: State, piece: &[u8]) -> Result<Fed, FedError>
    ensures { feed_told st result ≡ reach_of st piece.now }
{
    if !sound(st) {
        return Err(FedError::Closed);
    }
    if st.limit - (st.at + st.have) < piece.len() {
        return Err(FedError::TooMuch);
    }
    let mut s = st;
    let mut i = 0;
    while i < piece.len() {
        if starts(s.have, piece[i]) {
            break;
        }
        let f = next(s, piece, i);
        if f.found.is_some() {
            return Ok(f);
        }
        i = f.taken;
        s = f.state;
    }
    Ok(Fed {
        state: s,
        taken: i,
        found: None,
    })
}

// Takes the piece up to the byte that completes a record, else all of it.
pub fn feed(st: State, piece: &[u8]) -> Result<Fed, FedError>
    ensures { feed_told st result ≡ feed_of st piece.now }
{
    let f = reach(st, piece)?;
    if f.found.is_some() {
        return Ok(f);
    }
    if f.taken < piece.len() {
        return Ok(walk_on(f.state, piece, f.taken));
    }
    Ok(f)
}
