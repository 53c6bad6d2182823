// The search for 06 0e 2b 34, and where a search waits that finds none: docs/RULES.md, "The walk", rule 2, and "The
// arriving walk".
#![tactic(auto)]

ghost use Rattle.std.specs.Prelude.{◌≡◌, true, false, ◌+◌, ◌≤◌, ◌<◌, length};
ghost use Rattle.labels.specs.Label.{key_at};
ghost use Rattle.search.specs.Search.{search_from, next_key, key_begins, wait_from, Passes};

use labels::KEY_START;

// Whether the four bytes at a place are those that a key starts with.
fn stands(s: &[u8], q: usize) -> bool
    requires { q + 4 ≤ length s.now }
    ensures { result ≡ key_at s.now q }
{
    (s[q] == 0x06) & ((s[q + 1] == 0x0e) & ((s[q + 2] == 0x2b) & (s[q + 3] == 0x34)))
}

// Whether a key's start stands at a place, which may lie anywhere.
pub fn key_at(s: &[u8], q: usize) -> bool
    ensures { result ≡ key_at s.now q }
{
    if s.len() < 4 {
        return false;
    }
    if s.len() - 4 < q {
        return false;
    }
    stands(s, q)
}

// The search place by place.
fn scan(s: &[u8], from: usize) -> usize
    ensures { result ≡ search_from s.now (length s.now) from }
{
    if s.len() <= from {
        return from;
    }
    if s.len() < 4 {
        return s.len();
    }
    for q in from..s.len() - 3 {
        if stands(s, q) {
            return q;
        }
    }
    s.len()
}

// Whether the second and the last byte of a key's start stand at one of 64 places: 06, the first, is the most common of
// the four in files. No branch on a byte, so that the compiler compares many at once and no input slows it.
fn pair_among(s: &[u8], at: usize) -> bool
    requires { at + 67 ≤ length s.now }
    ensures { result ≡ false → Passes s.now at (at + 64) }
{
    let mut hit = false;
    for k in 0..64 {
        hit = hit | ((s[at + k + 1] == 0x0e) & (s[at + k + 3] == 0x34));
    }
    hit
}

// Whether a key's start stands at one of 16 places, likewise.
fn key_among(s: &[u8], at: usize) -> bool
    requires { at + 19 ≤ length s.now }
    ensures { result ≡ false → Passes s.now at (at + 16) }
{
    let mut hit = false;
    for k in 0..16 {
        hit = hit | stands(s, at + k);
    }
    hit
}

// How far a search goes in 64 places: past them, or to the 16 that have a key's start.
fn pass(s: &[u8], at: usize) -> usize
    requires { at + 67 ≤ length s.now }
    ensures { (at ≤ result) × (result ≤ at + 64) × Passes s.now at result }
{
    if !pair_among(s, at) {
        return at + 64;
    }
    for k in 0..4 {
        if key_among(s, at + 16 * k) {
            return at + 16 * k;
        }
    }
    at + 64
}

// The first of 16 places where a key's start stands, else the place after them. The count is fixed, so that the compiler
// lays the places out one after the other.
fn near(s: &[u8], at: usize) -> usize
    requires { at + 19 ≤ length s.now }
    ensures { (result ≤ at + 16) × Passes s.now at result × (result < at + 16 → key_at s.now result ≡ true) }
{
    for k in 0..16 {
        if stands(s, at + k) {
            return at + k;
        }
    }
    at + 16
}

// The search from where a key's start is near.
fn soon(s: &[u8], from: usize) -> usize
    ensures { result ≡ search_from s.now (length s.now) from }
{
    if s.len() < 19 {
        return scan(s, from);
    }
    if s.len() - 19 < from {
        return scan(s, from);
    }
    let first = near(s, from);
    if first < from + 16 {
        return first;
    }
    scan(s, first)
}

// The search in blocks, and place by place from the 16 that have a key's start. The last block begins as far back as it must to
// be whole.
fn seek(s: &[u8], from: usize) -> usize
    ensures { result ≡ search_from s.now (length s.now) from }
{
    if s.len() < 67 {
        return scan(s, from);
    }
    let last = s.len() - 67;
    if last < from {
        return scan(s, from);
    }
    let mut q = from;
    while q < last + 64 {
        let at = q.min(last);
        let r = pass(s, at);
        if r < at + 64 {
            return soon(s, q + r.saturating_sub(q));
        }
        q = r;
    }
    s.len()
}

// The first place from one on where a key's start stands wholly before the end, else the end, which is cut to the
// buffer's; the place itself where it lies at or past the end.
pub fn next_key(s: &[u8], end: usize, from: usize) -> usize
    ensures { result ≡ next_key s.now end from }
{
    seek(&s[..end.min(s.len())], from)
}

// Whether all bytes from a place to the end are a beginning of a key's start.
fn key_begins(a: &[u8], q: usize) -> bool
    ensures { result ≡ key_begins a.now q }
{
    if a.len() < q {
        return true;
    }
    labels::begins(&a[q..], &KEY_START)
}

// The first place from one on from which all bytes begin a key's start, else the end, place by place.
fn begin_from(a: &[u8], from: usize) -> usize
    ensures { result ≡ wait_from a.now from }
{
    if a.len() <= from {
        return from;
    }
    for q in from..a.len() {
        if key_begins(a, q) {
            return q;
        }
    }
    a.len()
}

// The same, looking at the last four bytes alone: from no earlier place do all bytes begin a key's start.
pub fn wait_from(a: &[u8], from: usize) -> usize
    ensures { result ≡ wait_from a.now from }
{
    if a.len() < 4 {
        return begin_from(a, from);
    }
    let near = a.len() - 4;
    if from < near {
        return begin_from(a, near);
    }
    begin_from(a, from)
}
