// The groups of a tally as text, as the listing has them: `label 060e2b340101010d0e15000100010000 2` is a
// group of two records.
#![tactic(auto)]

ghost use Rattle.std.specs.Prelude.{◌≡◌, length};
ghost use Rattle.text.specs.Write.{Put};
ghost use Rattle.tally.specs.Groups.{groups_of};
ghost use Rattle.tally_text.specs.Groups.{group_text, each_group, groups_text};

use text::{put_all, put_byte, put_decimal, put_hex};

// What stands before, between and behind a group's label and count.
#[derive(Clone, Copy, Debug, PartialEq, Eq)]
pub struct Around<'a> {
    pub before: &'a [u8],
    pub between: u8,
    pub behind: u8,
}

// Puts a group's label and count, with bytes before, between and behind them.
fn put_group(out: &mut [u8], at: usize, around: Around, s: &[u8], first: usize, n: usize) -> usize
    ensures { Put (group_text around.entry.before.now around.entry.between around.entry.behind s.now first n) out.old at out.new result }
{
    let a = put_all(out, at, around.before);
    let b = put_hex(out, a, labels::label(s, first));
    let c = put_byte(out, b, around.between);
    let d = put_decimal(out, c, n as u64);
    put_byte(out, d, around.behind)
}

// Puts each group.
fn put_groups(
    out: &mut [u8],
    at: usize,
    around: Around,
    s: &[u8],
    firsts: &[usize],
    counts: &[usize],
) -> usize
    requires { length firsts.now ≡ length counts.now }
    ensures { Put (each_group (group_text around.entry.before.now around.entry.between around.entry.behind s.now) firsts.now counts.now) out.old at out.new result }
{
    let mut p = at;
    for (first, n) in firsts.iter().zip(counts) {
        p = put_group(out, p, around, s, *first, *n);
    }
    p
}

// Where the groups' text ends, and how many records are in none of them.
#[derive(Clone, Copy, Debug, PartialEq, Eq)]
pub struct Tallied {
    pub at: usize,
    pub other: usize,
}

// Puts the groups of the tally of the finished walk over s, each with bytes before, between and behind.
pub fn put_tally(out: &mut [u8], at: usize, around: Around, s: &[u8]) -> Tallied
    ensures put { Put (groups_text around.entry.before.now around.entry.between around.entry.behind s.now (groups_of s.now)) out.old at out.new result.at }
    ensures other_value { result.other ≡ (groups_of s.now).other }
{
    let mut firsts = [0usize; 64];
    let mut counts = [0usize; 64];
    let t = tally::count_all(s, &mut firsts, &mut counts);
    let n = t.groups;
    Tallied {
        at: put_groups(out, at, around, s, &firsts[..n], &counts[..n]),
        other: t.other,
    }
}
