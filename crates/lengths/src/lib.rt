// Lengths: docs/RULES.md, "Lengths and labels", and "L1. How long the length field was". First length byte below 80h: that number, 1 byte. 80h: length 0, 1 byte.
// 81h to 88h: that many more bytes hold it. 89h and above: no length. Bytes missing: cut.
#![tactic(auto)]

ghost use Rattle.std.specs.Prelude.{◌≡◌, ◌+◌, ◌≤◌, length};
ghost use Rattle.parts.specs.Number.{number_at};
ghost use Rattle.lengths.specs.Length.{shortest_of, length_at, two_bytes_at};

use parts::number;

// A length: its value, how many bytes it took, and whether no shorter form would have held it.
#[derive(Clone, Copy, Debug, PartialEq, Eq)]
pub struct Field {
    pub value: u64,
    pub size: usize,
    pub shortest: bool,
}

// Why no length is read at a place.
#[derive(Clone, Copy, Debug, PartialEq, Eq)]
pub enum NoLength {
    // Its bytes are not all there.
    Cut,
    // A first byte that begins no length.
    Invalid,
}

// Whether no shorter form holds the value of a first byte and n more from a place on: a form of a byte less, where there
// are two or more, holds it exactly where the first of them is 0.
fn shortest(s: &[u8], from: usize, first: u8, n: usize, value: u64) -> bool
    requires first_value { first ≡ 0x80 + n }
    requires n_in_bounds { from + n ≤ length s.now }
    requires value_value { value ≡ number_at s.now from n }
    ensures { result ≡ shortest_of first (1 + n) value }
{
    if n == 0 {
        return false;
    }
    if n == 1 {
        return 0x80 <= value;
    }
    let leading = s[from];
    leading != 0
}

// The length at a place, which may lie anywhere.
pub fn read(s: &[u8], at: usize) -> Result<Field, NoLength>
    ensures { result ≡ length_at s.now at }
{
    if s.len() <= at {
        return Err(NoLength::Cut);
    }
    let first = s[at];
    if first < 0x80 {
        return Ok(Field {
            value: u64::from(first),
            size: 1,
            shortest: true,
        });
    }
    if 0x88 < first {
        return Err(NoLength::Invalid);
    }
    let n = (first - 0x80) as usize;
    let from = at + 1;
    if s.len() - from < n {
        return Err(NoLength::Cut);
    }
    let end = from + n;
    let size = 1 + n;
    let value = number(&s[from..end]);
    Ok(Field {
        value,
        size,
        shortest: shortest(s, from, first, n, value),
    })
}

// The length of two bytes at a place, which may lie anywhere: a local item's.
pub fn read_two(s: &[u8], at: usize) -> Result<Field, NoLength>
    ensures { result ≡ two_bytes_at s.now at }
{
    if s.len() < 2 {
        return Err(NoLength::Cut);
    }
    if s.len() - 2 < at {
        return Err(NoLength::Cut);
    }
    let end = at + 2;
    Ok(Field {
        value: number(&s[at..end]),
        size: 2,
        shortest: true,
    })
}
