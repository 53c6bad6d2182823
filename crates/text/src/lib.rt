// Text in lent room.
//
// Each `put_` call puts a text at a place, as much of it as there is room for, leaves all else as it was, and answers the
// place after it. So `at = put_decimal(out, at, 7); at = put_byte(out, at, b';');` puts `7;`.
#![tactic(auto)]

ghost use Rattle.std.specs.Prelude.{◌≡◌, [], ◌∷◌, ◌<◌};
ghost use Rattle.io.specs.Digits.{hex_digit_ascii};
ghost use Rattle.text.specs.Write.{decimal_of, hex_of, Put};

// Puts one byte.
pub fn put_byte(out: &mut [u8], at: usize, b: u8) -> usize
    ensures { Put (b ∷ []) out.old at out.new result }
{
    if at < out.len() {
        out[at] = b;
        return at + 1;
    }
    at
}

// Puts all of s. The bytes are stored by a loop, of which the compiler makes a copy of many at once: copy_from_slice calls libc's memmove,
// and the library for C is to need no more of libc than it must.
pub fn put_all(out: &mut [u8], at: usize, s: &[u8]) -> usize
    ensures { Put s.now out.old at out.new result }
{
    if out.len() < at {
        return at;
    }
    let n = s.len().min(out.len() - at);
    for i in 0..n {
        out[at + i] = s[i];
    }
    at + n
}

// Puts a number in decimal. Its callers widen a usize by `as`: std has no From between usize and u64.
pub fn put_decimal(out: &mut [u8], at: usize, n: u64) -> usize
    ensures { Put (decimal_of n) out.old at out.new result }
{
    let mut digits = [0u8; 20];
    let k = io::decimal(n, &mut digits);
    put_all(out, at, &digits[..k])
}

// The hex digit of a number below 16.
fn hex_digit(d: u8) -> u8
    requires { d < 16 }
    ensures { result ≡ hex_digit_ascii d }
{
    if d < 10 { b'0' + d } else { b'a' + (d - 10) }
}

// Puts the bytes of s in lowercase hex.
pub fn put_hex(out: &mut [u8], at: usize, s: &[u8]) -> usize
    ensures { Put (hex_of s.now) out.old at out.new result }
{
    let mut p = at;
    for b in s {
        p = put_byte(out, p, hex_digit(b / 16));
        p = put_byte(out, p, hex_digit(b % 16));
    }
    p
}
