// A flag and a signed number as a host's arrays of u64 have them: include/brinethimble.h.
#![tactic(auto)]

ghost use Rattle.std.specs.Prelude.{◌≡◌};
ghost use Rattle.host_numbers.specs.Numbers.{twos, mark};

// 1 for a flag that is set.
pub fn mark(b: bool) -> u64
    ensures { result ≡ mark b }
{
    if b { 1 } else { 0 }
}

// A signed number in two's complement: one below 0 is 2 ^ 64 more.
pub fn twos(n: i64) -> u64
    ensures { result ≡ twos n }
{
    if n < 0 {
        let below = -1 - n;
        let up = below as u64;
        return u64::MAX - up;
    }
    n as u64
}
