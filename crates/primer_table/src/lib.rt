// A table over a primer: docs/RULES.md, "A primer's table". It is filled in one pass from the first entry to the last, so that the
// last of equal tags stays. A look-up is then one place of it and one entry, which must have the tag: so the table needs no
// clearing first, and what was in it does no harm.
#![tactic(auto)]

ghost use Rattle.std.specs.Prelude.{◌≡◌, ◌<◌};
ghost use Rattle.parts.specs.Number.{number_at};
ghost use Rattle.primer.specs.Primer.{told, entries_in};
ghost use Rattle.primer.specs.LastWins.{place};
ghost use Rattle.primer_table.specs.Table.{table_of, held_for};

use parts::number;
use primer::entries;

// The tag of entry i.
fn tag_of(s: &[u8], i: usize) -> u64
    requires { i < entries_in s.now }
    ensures value { result ≡ number_at s.now (place i) 2 }
    ensures upper_bound { result < 65536 }
{
    let at = 8 + 18 * i;
    number(&s[at..at + 2])
}

// Puts the number of each entry of a primer's value at the entry's tag, the first entry first. What no entry has stays.
pub fn fill(s: &[u8], table: &mut [u64; 65536])
    ensures { table.new ≡ table_of s.now table.old }
{
    let n = entries(s);
    for i in 0..n {
        table[tag_of(s, i) as usize] = i as u64;
    }
}

// The place of a local tag's label in a primer's value: that of the entry whose number the table has, if the entry has the tag.
pub fn find(s: &[u8], table: &[u64], tag: u64) -> Option<usize>
    ensures { told result ≡ held_for s.now table.now tag }
{
    let place = tag as usize;
    if table.len() <= place {
        return None;
    }
    let i = table[place] as usize;
    if entries(s) <= i {
        return None;
    }
    if tag_of(s, i) != tag {
        return None;
    }
    Some(8 + 18 * i + 2)
}
