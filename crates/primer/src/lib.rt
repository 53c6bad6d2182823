// The primer: docs/RULES.md, "Tables inside values", and "L5. Last tag wins". Bytes 4..8 must be 18, else it is empty; the count
// is ignored; entries of 18 start at 8, and a partial last one is dropped. Of equal tags the last wins: the search goes
// backwards from the last whole entry and takes the first that it meets. Nothing is kept: the search is of the lent bytes.
#![tactic(auto)]

ghost use Rattle.std.specs.Prelude.{◌≡◌, ◌+◌, ◌≤◌, length, eqb};
ghost use Rattle.parts.specs.Number.{number_at};
ghost use Rattle.primer.specs.Primer.{told, entries_in, entry_of};

use parts::number;

// How many whole entries a primer's value has.
pub fn entries(s: &[u8]) -> usize
    ensures { result ≡ entries_in s.now }
{
    if s.len() < 8 {
        return 0;
    }
    if number(&s[4..8]) != 18 {
        return 0;
    }
    (s.len() - 8) / 18
}

// Whether the entry at a place has the tag.
fn has(s: &[u8], at: usize, tag: u64) -> bool
    requires { at + 18 ≤ length s.now }
    ensures { result ≡ eqb (number_at s.now at 2) tag }
{
    number(&s[at..at + 2]) == tag
}

// The place of the label's 16 bytes for a local tag, in the primer's value: of equal tags the last, which is the first that is met
// from the end.
pub fn find(s: &[u8], tag: u64) -> Option<usize>
    ensures { told result ≡ entry_of s.now tag }
{
    let n = entries(s);
    for i in (0..n).rev() {
        let at = 8 + 18 * i;
        if has(s, at, tag) {
            return Some(at + 2);
        }
    }
    None
}
