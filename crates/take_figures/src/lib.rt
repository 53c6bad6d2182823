// A field's figures as text: docs/RULES.md, "L14. Two recordings of one take". Floats stand by their bits, numbers in decimal, and
// nothing is `-`.
#![tactic(auto)]

ghost use Rattle.std.specs.Prelude.{◌≡◌, ◌≤◌};
ghost use Rattle.text.specs.Write.{Put};
ghost use Rattle.take_figures.specs.Figures.{bits_text, pair_text, three_text, value_text, figure_text};

use frame_differences::Said;
use text::{put_all, put_byte, put_decimal, put_hex};
use written_numbers::put_number;

// Puts the low n bytes of a float's bits in hex.
fn put_bits(out: &mut [u8], at: usize, n: usize, bits: u64) -> usize
    requires { n ≤ 8 }
    ensures { Put (bits_text n bits) out.old at out.new result }
{
    let mut b = [0u8; 8];
    put_number(&mut b, 0, n, bits);
    put_hex(out, at, &b[..n])
}

// Puts tilt and roll.
fn put_pair(out: &mut [u8], at: usize, tilt: u32, roll: u32) -> usize
    ensures { Put (pair_text tilt roll) out.old at out.new result }
{
    let a = put_bits(out, at, 4, u64::from(tilt));
    let b = put_byte(out, a, b'/');
    put_bits(out, b, 4, u64::from(roll))
}

// Puts the factors on three colours.
fn put_three(out: &mut [u8], at: usize, red: u64, green: u64, blue: u64) -> usize
    ensures { Put (three_text red green blue) out.old at out.new result }
{
    let a = put_bits(out, at, 8, red);
    let b = put_byte(out, a, b'/');
    let c = put_bits(out, b, 8, green);
    let d = put_byte(out, c, b'/');
    put_bits(out, d, 8, blue)
}

// Puts a value that is something.
fn put_value(out: &mut [u8], at: usize, s: Said) -> usize
    ensures { Put (value_text s) out.old at out.new result }
{
    match s {
        Said::Single(bits) => put_bits(out, at, 4, u64::from(bits)),
        Said::Double(bits) => put_bits(out, at, 8, bits),
        Said::Whole(n) => put_decimal(out, at, n),
        Said::Infinity => put_all(out, at, b"7f800000"),
        Said::Linear(n) => put_decimal(out, at, u64::from(n)),
        Said::Angles(tilt, roll) => put_pair(out, at, tilt, roll),
        Said::Factors(red, green, blue) => put_three(out, at, red, green, blue),
    }
}

// Puts a figure, or `-`.
pub fn put_figure(out: &mut [u8], at: usize, s: Option<Said>) -> usize
    ensures { Put (figure_text s) out.old at out.new result }
{
    match s {
        Some(s) => put_value(out, at, s),
        None => put_byte(out, at, b'-'),
    }
}
