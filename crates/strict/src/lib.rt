// A strict gate: docs/RULES.md, "L7. A strict gate". A file is accepted exactly where records follow each other from 0 to the
// end, no byte is passed and no length starts with 80h. Else the answer has the place of the first step where this breaks.
#![tactic(auto)]

ghost use Rattle.std.specs.Prelude.{◌≡◌, ◌+◌, ◌≤◌, length, leb};
ghost use Rattle.strict.specs.Strict.{strict_step, last_from, strict_of};
ghost use Rattle.strict.specs.Told.{told, seen_told};

// Why the gate refuses a file. From 10 on a refusal has its place.
#[derive(Clone, Copy, Debug, PartialEq, Eq)]
pub enum GateError {
    // 1: the end is larger than the buffer.
    Refused,
    // 10: fewer than 17 bytes are left.
    Short(usize),
    // 11: no key starts here.
    NoKey(usize),
    // 12: the length's first byte is 89h or above.
    NoLength(usize),
    // 13: the length's first byte is 80h.
    Indefinite(usize),
    // 14: the length or the value does not lie wholly before the end.
    Past(usize),
}

// Whether so many bytes from a place on lie wholly before the end; no bytes past it do not.
fn ends_within(v: usize, n: u64, end: usize) -> bool
    ensures { result ≡ leb (v + n) end }
{
    if end < v {
        return false;
    }
    n <= (end - v) as u64
}

// A step at a place: the place behind the record there, or None at the end.
fn look(s: &[u8], end: usize, p: usize) -> Result<Option<usize>, GateError>
    requires { end ≤ length s.now }
    ensures { seen_told end p result ≡ strict_step s.now end p }
{
    if p == end {
        return Ok(None);
    }
    if end.saturating_sub(p) < 17 {
        return Err(GateError::Short(p));
    }
    if !search::key_at(s, p) {
        return Err(GateError::NoKey(p));
    }
    let at = p + 16;
    let first = s[at];
    if 0x89 <= first {
        return Err(GateError::NoLength(p));
    }
    if first == 0x80 {
        return Err(GateError::Indefinite(p));
    }
    let Ok(f) = lengths::read(s, at) else {
        return Err(GateError::Past(p));
    };
    let v = at + f.size;
    let n = f.value;
    if !ends_within(v, n, end) {
        return Err(GateError::Past(p));
    }
    Ok(Some(v + n as usize))
}

// The steps from 0 on, record by record.
fn follow(s: &[u8], end: usize) -> Result<(), GateError>
    requires { end ≤ length s.now }
    ensures { told end result ≡ last_from s.now end 0 }
{
    let mut p = 0;
    while let Some(q) = look(s, end, p)? {
        p = q;
    }
    Ok(())
}

// Whether records follow each other from 0 to the end of a file, or where and how this breaks.
pub fn check(s: &[u8], end: usize) -> Result<(), GateError>
    ensures { told end result ≡ strict_of s.now end }
{
    if s.len() < end {
        return Err(GateError::Refused);
    }
    follow(s, end)
}
