// The bytes at a place: a part of the buffer, cut to what is there, and the number that bytes hold.
// docs/RULES.md: "numbers are big-endian"; "`vec![0; length]`: parts of the buffer".
#![tactic(auto)]

ghost use Rattle.std.specs.Prelude.{◌≡◌, ◌%◌, ◌^◌, take, drop};
ghost use Rattle.parts.specs.Number.{number_of, one_at, two_at, four_at};

// The part of at most len bytes from a place on: as much of it as is there.
pub fn part(s: &[u8], at: usize, len: usize) -> &[u8]
    ensures { result.now ≡ take len (drop at s.now) }
{
    let start = at.min(s.len());
    let end = start + len.min(s.len() - start);
    &s[start..end]
}

// The number that the bytes hold, the first one the highest; of more than eight bytes its low 64 bits.
pub fn number(s: &[u8]) -> u64
    ensures { result ≡ number_of s.now % 2 ^ 64 }
{
    let mut value: u64 = 0;
    for b in s {
        value = value % 0x100_0000_0000_0000 * 256 + u64::from(*b);
    }
    value
}

// The number that the n bytes at a place hold: as many of them as are there.
pub fn number_at(s: &[u8], at: usize, n: usize) -> u64
    ensures { result ≡ number_of (take n (drop at s.now)) % 2 ^ 64 }
{
    number(part(s, at, n))
}

// The byte at a place, or 0 where none is there.
pub fn one_at(s: &[u8], at: usize) -> u8
    ensures { result ≡ one_at s.now at }
{
    number_at(s, at, 1) as u8
}

// The number that the two bytes at a place hold: as many of them as are there.
pub fn two_at(s: &[u8], at: usize) -> u16
    ensures { result ≡ two_at s.now at }
{
    number_at(s, at, 2) as u16
}

// The number that the four bytes at a place hold: as many of them as are there.
pub fn four_at(s: &[u8], at: usize) -> u32
    ensures { result ≡ four_at s.now at }
{
    number_at(s, at, 4) as u32
}
