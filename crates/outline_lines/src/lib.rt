// The lines of an outline: docs/RULES.md, "L4. An outline". `2 3c0a 17` is an item's line: level, label or tag in hex, length.
// `2 rest 1` is the line of what is left behind a set's or run's last whole item.
//
// Each `add_` call puts a text at a place, as much of it as there is room for, and answers the place after the whole of it,
// also where there is less room: put into no room, a text is only counted.
#![tactic(auto)]

ghost use Rattle.std.specs.Prelude.{◌≡◌};
ghost use Rattle.text.specs.Write.{decimal_of, hex_of};
ghost use Rattle.outline_lines.specs.Lines.{item_line, rest_of, Added};

use text::{put_all, put_decimal, put_hex};

// Adds all of s.
fn add_all(out: &mut [u8], at: usize, s: &[u8]) -> usize
    ensures { Added s.now out.old at out.new result }
{
    put_all(out, at, s);
    at.saturating_add(s.len())
}

// Adds a number in decimal.
fn add_decimal(out: &mut [u8], at: usize, n: u64) -> usize
    ensures { Added (decimal_of n) out.old at out.new result }
{
    let mut digits = [0u8; 20];
    let k = put_decimal(&mut digits, 0, n);
    add_all(out, at, &digits[..k])
}

// Adds the bytes of s in lowercase hex.
fn add_hex(out: &mut [u8], at: usize, s: &[u8]) -> usize
    ensures { Added (hex_of s.now) out.old at out.new result }
{
    let end = at.saturating_add(s.len()).saturating_add(s.len());
    if out.len() <= at {
        return end;
    }
    put_hex(out, at, s);
    end
}

// Adds an item's line.
pub fn add_item(out: &mut [u8], at: usize, level: usize, key: &[u8], n: usize) -> usize
    ensures { Added (item_line level key.now n) out.old at out.new result }
{
    let a = add_decimal(out, at, level as u64);
    let b = add_all(out, a, b" ");
    let c = add_hex(out, b, key);
    let d = add_all(out, c, b" ");
    let e = add_decimal(out, d, n as u64);
    add_all(out, e, b"\n")
}

// Adds the line of what is left, if anything is.
pub fn add_rest(out: &mut [u8], at: usize, level: usize, n: usize) -> usize
    ensures { Added (rest_of level n) out.old at out.new result }
{
    if n == 0 {
        return at;
    }
    let a = add_decimal(out, at, level as u64);
    let b = add_all(out, a, b" rest ");
    let c = add_decimal(out, b, n as u64);
    add_all(out, c, b"\n")
}
