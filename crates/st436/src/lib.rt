// ST 436: docs/RULES.md, "Tables inside values". A count of 2 bytes, then lines: a header of 14 with the sample count at 4, the
// array count at 6 and the array length at 10. The array length must be 1 unless the array count is 0. The array is cut to
// the sample count; if it then has at least 4 bytes and begins 43 05, the bytes from 4 are payload. The first bad line ends
// it. A host that wants no copy steps over the lines, and takes each one's part of the element.
#![tactic(auto)]

ghost use Rattle.std.specs.Prelude.{◌≡◌, ◌+◌, ◌≤◌, ◌<◌, length, take, drop};
ghost use Rattle.text.specs.Write.{Put};
ghost use Rattle.st436.specs.Lines.{line_count, of_bytes, payload_length, array_count, line_at, line_step};
ghost use Rattle.st436.specs.Payload.{payload_of, payload_said, payload_into};
ghost use Rattle.st436.specs.Told.{first_line, whole_told, told, said};

use parts::number_at;

// A line's payload: where it stands in the element and how long it is, 0 where the line has none.
#[derive(Clone, Copy, Debug, PartialEq, Eq)]
pub struct Line {
    pub at: usize,
    pub len: usize,
}

impl Line {
    // Its bytes: as many of them as are there.
    pub fn bytes(self, s: &[u8]) -> &[u8]
        ensures { result.now ≡ take self.len (drop self.at s.now) }
    {
        parts::part(s, self.at, self.len)
    }
}

// How many lines an element says that it has.
fn line_count(s: &[u8]) -> usize
    ensures { result ≡ line_count s.now }
{
    if s.len() < 2 {
        return 0;
    }
    number_at(s, 0, 2) as usize
}

// Whether a line's array of so many elements has elements of one byte, or none.
fn of_bytes(s: &[u8], at: usize, count: usize) -> bool
    requires { (at + 14 ≤ length s.now) × (count ≡ array_count s.now at) }
    ensures { result ≡ of_bytes s.now at }
{
    if count == 0 {
        return true;
    }
    number_at(s, at + 10, 4) == 1
}

// How many bytes of a line's array, which has so many, are payload.
fn payload_length(s: &[u8], at: usize, count: usize) -> usize
    requires { (at + 14 + count ≤ length s.now) × (count ≡ array_count s.now at) }
    ensures { result ≡ payload_length s.now at }
{
    let cut = (number_at(s, at + 4, 2) as usize).min(count);
    if cut < 4 {
        return 0;
    }
    if s[at + 14] != 0x43 {
        return 0;
    }
    if s[at + 15] != 0x05 {
        return 0;
    }
    cut - 4
}

// The line at a place, with the place behind it: none where it is not whole, or not of bytes.
fn line_at(s: &[u8], at: usize) -> Option<(Line, usize)>
    ensures { whole_told at result ≡ line_at s.now at }
{
    if s.len() < 14 {
        return None;
    }
    if s.len() - 14 < at {
        return None;
    }
    let array = at + 14;
    let count = number_at(s, at + 6, 4) as usize;
    if s.len() - array < count {
        return None;
    }
    if !of_bytes(s, at, count) {
        return None;
    }
    let len = payload_length(s, at, count);
    Some((Line { at: at + 18, len }, array + count))
}

// Where the lines of an element are read, and how many are left.
#[derive(Clone, Copy, Debug, PartialEq, Eq)]
pub struct Lines {
    pub at: usize,
    pub left: usize,
}

impl Lines {
    // The cursor at an element's first line.
    pub fn first(s: &[u8]) -> Self
        ensures { result ≡ first_line s.now }
    {
        Lines {
            at: 2,
            left: line_count(s),
        }
    }

    // The line at the cursor, with the cursor past it: none where no good line is left.
    pub fn step(self, s: &[u8]) -> Option<(Line, Lines)>
        ensures { told self.at result ≡ line_step s.now self.left self.at }
    {
        if self.left == 0 {
            return None;
        }
        let left = self.left - 1;
        let (line, next) = line_at(s, self.at)?;
        Some((line, Lines { at: next, left }))
    }
}

// How long an element's payload is.
pub fn length_of(s: &[u8]) -> usize
    ensures { result ≡ length (payload_of s.now) }
{
    let mut n = 0;
    let mut lines = Lines::first(s);
    while let Some((line, next)) = lines.step(s) {
        n += line.len;
        lines = next;
    }
    n
}

// Puts an element's payload at the start of out, as much of it as there is room for.
fn put_payload(s: &[u8], out: &mut [u8]) -> usize
    ensures { Put (payload_of s.now) out.old 0 out.new result }
{
    let mut r = 0;
    let mut lines = Lines::first(s);
    while let Some((line, next)) = lines.step(s) {
        if 0 < line.len {
            r = text::put_all(out, r, line.bytes(s));
        }
        lines = next;
    }
    r
}

// A payload is longer than the output, and that long: refusal 3.
#[derive(Clone, Copy, Debug, PartialEq, Eq)]
pub struct Longer {
    pub needed: usize,
}

// Puts an element's payload at the start of out, and answers how long it is. Where out has less room, nothing is put. Room for
// the whole element is enough for any payload, and spares the count.
pub fn payload_into(s: &[u8], out: &mut [u8]) -> Result<usize, Longer>
    ensures result_value { said result ≡ payload_said s.now (length out.old) }
    ensures out_after { out.new ≡ payload_into s.now out.old }
{
    if s.len() <= out.len() {
        let put = put_payload(s, out);
        return Ok(put);
    }
    let needed = length_of(s);
    if out.len() < needed {
        return Err(Longer { needed });
    }
    put_payload(s, out);
    Ok(needed)
}
