// The tally: docs/RULES.md, "Tally and listing", and "L3. The tally's groups" for which labels group together. Groups come in
// order of first appearance, at most 64; records that fit none of these count as other.
#![tactic(auto)]

ghost use Rattle.std.specs.Prelude.{◌≡◌, ◌+◌, ◌≤◌, ◌<◌, length};
ghost use Rattle.tally.specs.Groups.{same_group, same, groups_of, answer_of, front};
ghost use Rattle.tally.specs.Adding.{group_of, group_at, Below, Added};

use walk::{Cursor, Step};

// Whether two labels group together: the byte at 7 doesn't count, nor does the byte at 5 where it codes the items of both.
fn same_group(a: &[u8], b: &[u8]) -> bool
    ensures { result ≡ same_group a.now b.now }
{
    if labels::codes_items(a) & labels::codes_items(b) {
        return labels::agree_but(a, b, 5, 7, 7);
    }
    labels::same_label(a, b)
}

// Whether the records at two places group together.
fn same_at(s: &[u8], p: usize, q: usize) -> bool
    ensures { result ≡ same s.now p q }
{
    same_group(labels::label(s, p), labels::label(s, q))
}

// The first group that the record at p belongs to, else the number of groups.
fn group_of(s: &[u8], firsts: &[usize], groups: usize, p: usize) -> usize
    requires { groups ≤ length firsts.now }
    ensures { result ≡ group_of s.now firsts.now groups p }
{
    for j in 0..groups {
        if same_at(s, firsts[j], p) {
            return j;
        }
    }
    groups
}

// The number of the group that the record at p belongs to, among as many as are stated, the list has, and 64; else 4095.
pub fn group_at(s: &[u8], firsts: &[usize], groups: usize, p: usize) -> u64
    ensures { result ≡ group_at s.now firsts.now groups p }
{
    let n = groups.min(64).min(firsts.len());
    let j = group_of(s, firsts, n, p);
    if j < n { j as u64 } else { 4095 }
}

// How many groups stand in the lent lists, and how many records fit none.
#[derive(Clone, Copy, Debug, PartialEq, Eq)]
pub struct Tally {
    pub groups: usize,
    pub other: usize,
}

// Counts the record at p in its group. It opens one where there is none, if 64 are not yet open; else it is other.
fn add(s: &[u8], firsts: &mut [usize], counts: &mut [usize], t: Tally, p: usize) -> Tally
    requires p_in_bounds { p + 1 ≤ length s.now }
    requires groups_bound { t.groups ≤ 64 }
    requires in_bounds { 64 ≤ length firsts.old }
    requires in_bounds_2 { 64 ≤ length counts.old }
    requires below { Below p t counts.old }
    ensures { Added s.now p t firsts.old counts.old result firsts.new counts.new }
{
    let groups = t.groups;
    let other = t.other;
    let j = group_of(s, firsts, groups, p);
    if j < groups {
        counts[j] += 1;
        return Tally { groups, other };
    }
    if groups < 64 {
        firsts[groups] = p;
        counts[groups] = 1;
        let opened = groups + 1;
        return Tally {
            groups: opened,
            other,
        };
    }
    let more = other + 1;
    Tally {
        groups,
        other: more,
    }
}

// The tally of `count_all`, into lists with room for 64.
fn count_in(s: &[u8], firsts: &mut [usize], counts: &mut [usize]) -> Tally
    requires in_bounds { 64 ≤ length firsts.old }
    requires in_bounds_2 { 64 ≤ length counts.old }
    ensures value { result ≡ answer_of (groups_of s.now) }
    ensures firsts_after { firsts.new ≡ front (groups_of s.now).firsts firsts.old }
    ensures counts_after { counts.new ≡ front (groups_of s.now).counts counts.old }
{
    let mut t = Tally {
        groups: 0,
        other: 0,
    };
    let mut c = Cursor { at: 0, since: 0 };
    while let Step::Record(k, _, next) = c.step(s, s.len()).unwrap() {
        t = add(s, firsts, counts, t, k.at);
        c = next;
    }
    t
}

// Puts the place of each group's first record, and how many it has, at the start of the lent lists, for the finished walk
// over all of s, and answers how many groups there are and how many records are other.
pub fn count_all(s: &[u8], firsts: &mut [usize; 64], counts: &mut [usize; 64]) -> Tally
    ensures value { result ≡ answer_of (groups_of s.now) }
    ensures firsts_after { firsts.new ≡ front (groups_of s.now).firsts firsts.old }
    ensures counts_after { counts.new ≡ front (groups_of s.now).counts counts.old }
{
    count_in(s, firsts, counts)
}
