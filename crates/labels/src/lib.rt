// Labels: docs/RULES.md, "Lengths and labels". Two labels are the same when both have 16 bytes and agree in all but the
// byte at 7.
#![tactic(auto)]

ghost use Rattle.std.specs.Prelude.{◌≡◌, ◌+◌, ◌≤◌, length, drop, eqb};
ghost use Rattle.parts.specs.Number.{number_at};
ghost use Rattle.labels.specs.Label.{beginning, agree_but, same_label, codes_items, label_at, partition_prefix, partition_kind};

use parts::number;

// What every key starts with: a SMPTE universal label's first bytes (ST 336).
pub const KEY_START: [u8; 4] = *b"\x06\x0e\x2b\x34";

// The partition packs' labels, ahead of their kind (2 the header's, 3 a body's, 4 the footer's), their status and 0
// (ST 377-1).
pub const PARTITION_PREFIX: [u8; 13] = *b"\x06\x0e\x2b\x34\x02\x05\x01\x01\x0d\x01\x02\x01\x01";

// The random index pack's key (ST 377-1).
pub const RANDOM_INDEX: [u8; 16] =
    *b"\x06\x0e\x2b\x34\x02\x05\x01\x01\x0d\x01\x02\x01\x01\x11\x01\x00";

// Whether the first is a beginning of the second.
pub fn begins(l: &[u8], k: &[u8]) -> bool
    ensures { result ≡ beginning l.now k.now }
{
    k.starts_with(l)
}

// Whether two labels have 16 bytes each and agree in all but those at three places. The one branch on their bytes stands
// between the halves: the compiler compares the eight of a half at once, which it does not do for all 16.
pub fn agree_but(a: &[u8], b: &[u8], x: usize, y: usize, z: usize) -> bool
    ensures { result ≡ agree_but x y z a.now b.now }
{
    if a.len() != 16 {
        return false;
    }
    if b.len() != 16 {
        return false;
    }
    let mut agree = true;
    for i in 0..16 {
        if (i == 8) & !agree {
            return false;
        }
        agree = agree & (((i == x) | ((i == y) | (i == z))) | (a[i] == b[i]));
    }
    agree
}

// Whether two labels are the same: the byte at 7, the registry's version, doesn't count.
pub fn same_label(a: &[u8], b: &[u8]) -> bool
    ensures { result ≡ same_label a.now b.now }
{
    agree_but(a, b, 7, 7, 7)
}

// Whether a label is a set's, whose byte 5 says how its items are coded: byte 4 is 02h, and byte 5 is 13h, 43h or 53h.
pub fn codes_items(l: &[u8]) -> bool
    ensures { result ≡ codes_items l.now }
{
    if l.len() < 6 {
        return false;
    }
    (l[4] == 0x02) & ((l[5] == 0x13) | ((l[5] == 0x43) | (l[5] == 0x53)))
}

// The 16 bytes of the label at a place: as many of them as are there.
pub fn label(s: &[u8], at: usize) -> &[u8]
    ensures { result.now ≡ label_at s.now at }
{
    parts::part(s, at, 16)
}

// Whether n bytes at one place are those at another, where n is at most eight: they hold the same number. The compiler loads a number's
// bytes at once.
fn same_bytes(a: &[u8], i: usize, b: &[u8], j: usize, n: usize) -> bool
    requires n_bound { n ≤ 8 }
    requires n_in_bounds { i + n ≤ length a.now }
    requires n_in_bounds_2 { j + n ≤ length b.now }
    ensures { result ≡ eqb (number_at a.now i n) (number_at b.now j n) }
{
    let i_end = i + n;
    let j_end = j + n;
    number(&a[i..i_end]) == number(&b[j..j_end])
}

// Whether the partition packs' prefix stands at a place.
fn prefixed(s: &[u8], at: usize) -> bool
    requires { at + 13 ≤ length s.now }
    ensures { result ≡ beginning partition_prefix (drop at s.now) }
{
    let prefix = PARTITION_PREFIX;
    same_bytes(s, at, &prefix, 0, 8)
        & (same_bytes(s, at + 8, &prefix, 8, 4) & same_bytes(s, at + 12, &prefix, 12, 1))
}

// The kind of the partition pack whose label stands at a place, which may lie anywhere: the byte behind the prefix, or 0 where
// the 14 bytes are not all there or do not start with the prefix.
pub fn partition_kind(s: &[u8], at: usize) -> u8
    ensures { result ≡ partition_kind s.now at }
{
    if s.len() < 14 {
        return 0;
    }
    if s.len() - 14 < at {
        return 0;
    }
    if !prefixed(s, at) {
        return 0;
    }
    s[at + 13]
}
