// A fed walker's state as a host has it: ten numbers in an array that it lends (include/brinethimble.h). Any ten numbers are a state.
// What a call does most goes by the numbers alone, since making a state of them takes as long as reading a record.
#![tactic(auto)]

mod keys;

ghost use Rattle.std.specs.Prelude.{◌≡◌, ◌+◌, ◌≤◌, ◌<◌, ◌^◌, ◌++◌, ◌&&◌, length, leb};
ghost use Rattle.parts.specs.Number.{number_at};
ghost use Rattle.lengths.specs.Length.{length_at};
ghost use Rattle.fed_states.specs.State.{sought, gone_on, whole_label};
ghost use Rattle.fed.specs.Parts.{having, rest_of};
ghost use Rattle.host_fed_states.specs.Places.{flag, is_marked, bytes_of, eight_put, eight_of, state_of, state_places, places_of, places_in, flags_put, start_of, seeking_of, key_places};
ghost use Rattle.host_fed_states.specs.Waited.{value_of, waited_of, begun_of};

use fed::{rest, searches};
use fed_states::State;
use host_numbers::mark;
use keys::{length_of, whole_key};
use klv::Klv;

// Whether a place is not 0.
fn flag(n: u64) -> bool
    ensures { result ≡ flag n }
{
    n != 0
}

// A number: an answer has 64 bits, and an element of a lent array does not tell so.
fn held(n: u64) -> u64
    ensures { result ≡ n }
{
    n
}

// The number that the eight bytes at a place hold.
fn eight_at(b: &[u8], at: usize) -> u64
    requires { at + 8 ≤ length b.now }
    ensures { result ≡ number_at b.now at 8 }
{
    let mut eight = [0u8; 8];
    eight.copy_from_slice(&b[at..at + 8]);
    u64::from_be_bytes(eight)
}

// The same, 0 where they are not all there.
pub fn eight_of(b: &[u8], at: usize) -> u64
    ensures { result ≡ eight_of b.now at }
{
    if b.len() < 8 {
        return 0;
    }
    if b.len() - 8 < at {
        return 0;
    }
    eight_at(b, at)
}

// Puts the eight bytes that hold a number at a place, where there is room for all of them.
pub fn put_eight(b: &mut [u8], at: usize, n: u64)
    ensures { b.new ≡ eight_put n at b.old }
{
    if b.len() < 8 {
        return;
    }
    if b.len() - 8 < at {
        return;
    }
    b[at..at + 8].copy_from_slice(&n.to_be_bytes());
}

// The label that two numbers hold.
fn label_of(first: u64, last: u64) -> [u8; 16]
    ensures { result ≡ bytes_of 8 first ++ bytes_of 8 last }
{
    let mut label = [0u8; 16];
    put_eight(&mut label, 0, first);
    put_eight(&mut label, 8, last);
    label
}

// The nine bytes behind it.
fn ber_of(lead: u64, eight: u64) -> [u8; 9]
    ensures { result ≡ bytes_of 1 lead ++ bytes_of 8 eight }
{
    let mut ber = [0u8; 9];
    ber[0] = (lead % 256) as u8;
    put_eight(&mut ber, 1, eight);
    ber
}

// The state that a host's array is.
pub fn state_of(s: &[u64; 10]) -> State
    ensures { result ≡ state_of s.now }
{
    State {
        limit: s[0] as usize,
        known: flag(s[1]),
        live: flag(s[2]),
        at: s[3] as usize,
        have: s[4] as usize,
        since: s[5] as usize,
        label: label_of(s[6], s[7]),
        ber: ber_of(s[8], s[9]),
    }
}

// Puts a state.
pub fn put_state(st: State, s: &mut [u64; 10])
    ensures { s.new ≡ state_places st }
{
    let known = mark(st.known);
    let live = mark(st.live);
    let label = st.label;
    let ber = st.ber;
    *s = [
        st.limit as u64,
        known,
        live,
        st.at as u64,
        st.have as u64,
        st.since as u64,
        eight_at(&label, 0),
        eight_at(&label, 8),
        u64::from(ber[0]),
        eight_at(&ber, 1),
    ];
}

// The limit.
pub fn limit_of(s: &[u64; 10]) -> usize
    ensures { result ≡ (state_of s.now).limit }
{
    s[0] as usize
}

// Where a search starts: at which place of the stream, and how many bytes of a piece come before it.
#[derive(Clone, Copy, Debug, PartialEq, Eq)]
pub struct Search {
    pub at: usize,
    pub taken: usize,
}

// Where a search starts in a piece, before a key's start has come whole; behind all of it where none does.
pub fn starting(s: &[u64; 10], piece: &[u8]) -> Search
    ensures { result ≡ start_of (state_of s.now) piece.now }
{
    let live = flag(s[2]);
    let limit = limit_of(s);
    let at = s[3] as usize;
    let have = s[4] as usize;
    let taken = searches(live, limit, at, have, piece);
    if taken < piece.len() {
        let here = at + have + taken;
        return Search { at: here, taken };
    }
    Search { at: 0, taken }
}

// A value that is waited for: with how many bytes from its key on it is whole, its end, and the record that it is then.
#[derive(Clone, Copy, Debug, PartialEq, Eq)]
pub struct Value {
    pub due: usize,
    pub next: usize,
    pub klv: Klv,
}

// Whether a walk is open, and so many bytes behind those that have come are within its limit.
fn may(live: bool, limit: usize, at: usize, have: usize, n: usize) -> bool
    ensures { result ≡ live && leb (at + have + n) limit }
{
    if !live {
        return false;
    }
    if limit < at {
        return false;
    }
    let room = limit - at;
    if room < have {
        return false;
    }
    n <= room - have
}

// The value behind a key at a place, of which so many bytes have come, by the nine bytes behind its label.
fn value_of(limit: usize, at: usize, have: usize, lead: u64, eight: u64) -> Option<Value>
    requires { at + 25 ≤ limit }
    ensures { result ≡ value_of limit at have (length_at (bytes_of 1 lead ++ bytes_of 8 eight) 0) }
{
    let l = length_of(lead, eight);
    let Ok(f) = l else {
        return None;
    };
    let behind = 16 + f.size;
    let value = at + behind;
    if ((limit - value) as u64) < f.value {
        return None;
    }
    let len = f.value as usize;
    let due = behind + len;
    if due <= have {
        return None;
    }
    let next = value + len;
    Some(Value {
        due,
        next,
        klv: Klv {
            at,
            value,
            len,
            size: f.size,
            shortest: f.shortest,
        },
    })
}

// The value that is waited for, where all that is kept of its key has come and n bytes may come.
pub fn waited(s: &[u64; 10], n: usize) -> Option<Value>
    ensures { result ≡ waited_of (state_of s.now) n }
{
    let live = flag(s[2]);
    let limit = limit_of(s);
    let at = s[3] as usize;
    let have = s[4] as usize;
    if !may(live, limit, at, have, n) {
        return None;
    }
    if have < 25 {
        return None;
    }
    value_of(limit, at, have, s[8], s[9])
}

// The value of a key that a piece starts with, where no byte of one has come and all that is kept of it is there.
pub fn begun(s: &[u64; 10], piece: &[u8]) -> Option<Value>
    ensures { result ≡ begun_of (state_of s.now) piece.now }
{
    let live = flag(s[2]);
    let limit = limit_of(s);
    let at = s[3] as usize;
    let have = s[4] as usize;
    if !may(live, limit, at, have, piece.len()) {
        return None;
    }
    if have != 0 {
        return None;
    }
    if !whole_key(piece, 0, piece.len()) {
        return None;
    }
    let lead = u64::from(piece[16]);
    let eight = eight_at(piece, 17);
    value_of(limit, at, have, lead, eight)
}

// Whether the walk is open, and its flags are 0 or 1, as every call puts them.
pub fn marked(s: &[u64; 10]) -> bool
    ensures { result ≡ is_marked s.now }
{
    (s[1] <= 1) & (s[2] == 1)
}

// Puts the flags as 0 or 1; all else stays.
pub fn put_flags(s: &mut [u64; 10])
    ensures { s.new ≡ flags_put s.old }
{
    let known = mark(flag(s[1]));
    let live = mark(flag(s[2]));
    s[1] = known;
    s[2] = live;
}

// Puts all of a state but the limit and the flags, which stay.
fn put_in(st: State, s: &mut [u64; 10])
    ensures { s.new ≡ places_in s.old st }
{
    let label = st.label;
    let ber = st.ber;
    let first = eight_at(&label, 0);
    let last = eight_at(&label, 8);
    let lead = u64::from(ber[0]);
    let eight = eight_at(&ber, 1);
    put_places(s, st.at, st.have, st.since, first, last, lead, eight);
}

// Puts other places behind the limit and the flags, which stay.
pub fn put_places(
    s: &mut [u64; 10],
    at: usize,
    have: usize,
    since: usize,
    first: u64,
    last: u64,
    lead: u64,
    eight: u64,
)
    ensures { s.new ≡ places_of s.old at have since first last lead eight }
{
    *s = [
        s[0],
        s[1],
        s[2],
        at as u64,
        have as u64,
        since as u64,
        first,
        last,
        lead,
        eight,
    ];
}

// Puts the state with another count of bytes.
pub fn put_having(s: &mut [u64; 10], have: usize)
    ensures { s.new ≡ places_in s.old (having (state_of s.old) have) }
{
    let at = s[3] as usize;
    let since = s[5] as usize;
    let first = held(s[6]);
    let last = held(s[7]);
    let lead = s[8] % 256;
    let eight = held(s[9]);
    put_places(s, at, have, since, first, last, lead, eight);
}

// Puts the state behind the record whose label is kept.
pub fn put_done(s: &mut [u64; 10], next: usize)
    ensures { s.new ≡ places_in s.old (gone_on (state_of s.old) next (state_of s.old).label) }
{
    let first = held(s[6]);
    let last = held(s[7]);
    put_places(s, next, 0, next, first, last, 0, 0);
}

// The number that eight bytes of the label at a place hold, from its n-th on: 0 where the label is not whole.
fn half_at(b: &[u8], at: usize, n: usize) -> u64
    requires { n ≤ 8 }
    ensures { result ≡ number_at (whole_label b.now at) n 8 }
{
    if b.len() < 16 {
        return 0;
    }
    if b.len() - 16 < at {
        return 0;
    }
    eight_at(b, at + n)
}

// Puts the state behind a record whose label stands at a place of some bytes.
pub fn put_behind(s: &mut [u64; 10], next: usize, b: &[u8], at: usize)
    ensures { s.new ≡ places_in s.old (gone_on (state_of s.old) next (whole_label b.now at)) }
{
    let first = half_at(b, at, 0);
    let last = half_at(b, at, 8);
    put_places(s, next, 0, next, first, last, 0, 0);
}

// The state where a key is sought at a place, of which no byte has come.
fn seeking(s: &[u64; 10], at: usize, since: usize) -> State
    ensures { result ≡ seeking_of (state_of s.now) at since }
{
    State {
        limit: s[0] as usize,
        known: flag(s[1]),
        live: flag(s[2]),
        at,
        have: 0,
        since,
        label: [0x06, 0x0e, 0x2b, 0x34, 0, 0, 0, 0, 0, 0, 0, 0, 0, 0, 0, 0],
        ber: [0; 9],
    }
}

// Puts the state where so many bytes of a key's start have come at a place.
fn put_sought(s: &mut [u64; 10], at: usize, have: usize, since: usize)
    ensures { s.new ≡ places_in s.old (sought (seeking_of (state_of s.old) at since) at have) }
{
    put_places(s, at, have, since, 0x060e2b3400000000, 0, 0, 0);
}

// Puts a key at w of some bytes, and all that is kept of what is behind it.
fn put_key(s: &mut [u64; 10], at: usize, since: usize, b: &[u8], w: usize)
    requires w_in_bounds { w + 25 ≤ length b.now }
    requires w_bound { at + w < 2 ^ 64 }
    ensures { s.new ≡ key_places s.old at since b.now w }
{
    let first = eight_at(b, w);
    let last = eight_at(b, w + 8);
    let lead = u64::from(b[w + 16]);
    let eight = eight_at(b, w + 17);
    let have = b.len() - w;
    put_places(s, at + w, have, since, first, last, lead, eight);
}

// Whether a place is one of n bytes, or their end, and all of them are within the limit.
fn among(limit: usize, at: usize, n: usize, w: usize) -> bool
    ensures { result ≡ leb (at + n) limit && leb w n }
{
    if limit < at {
        return false;
    }
    if limit - at < n {
        return false;
    }
    w <= n
}

// Puts what is kept of bytes that come at a place where a search starts, where the walk waits at w.
pub fn put_rest(s: &mut [u64; 10], at: usize, since: usize, b: &[u8], w: usize)
    ensures { s.new ≡ places_in s.old (rest_of (seeking_of (state_of s.old) at since) b.now w) }
{
    let limit = limit_of(s);
    if !among(limit, at, b.len(), w) {
        put_sought(s, at, 0, since);
        return;
    }
    let left = b.len() - w;
    if whole_key(b, w, left) {
        put_key(s, at, since, b, w);
        return;
    }
    if left == 0 {
        put_sought(s, at + w, 0, since);
        return;
    }
    if left < 4 {
        let q = search::wait_from(b, w);
        let have = b.len() - q;
        put_sought(s, at + q, have, since);
        return;
    }
    let st = rest(seeking(s, at, since), b, w);
    put_in(st, s);
}
