// A number in decimal, as a program's word has it: digits, and a number below 2^64.
#![tactic(auto)]

ghost use Rattle.std.specs.Prelude.{◌≡◌};
ghost use Rattle.decimals.specs.Decimal.{digit_more, number_in};

// A number with one digit more behind it: none for a byte that is no digit, and where more than 64 bits hold.
fn digit_more(n: u64, d: u8) -> Option<u64>
    ensures { result ≡ digit_more n d }
{
    if !d.is_ascii_digit() {
        return None;
    }
    n.checked_mul(10)?.checked_add(u64::from(d - b'0'))
}

// The number that the digits of s are: none without digits, for another byte among them, and where more than 64 bits hold.
pub fn number(s: &[u8]) -> Option<u64>
    ensures { result ≡ number_in s.now }
{
    if s.is_empty() {
        return None;
    }
    let mut n = 0;
    for d in s {
        n = digit_more(n, *d)?;
    }
    Some(n)
}
