// What a host links of the checks of whole files: numbers and slices in, a status and lent places out (include/brinethimble.h).
#![tactic(auto)]

ghost use Rattle.std.specs.Prelude.{◌≡◌, [], ◌∷◌};
ghost use Rattle.steps.specs.Told.{number};
ghost use Rattle.strict.specs.Strict.{strict_of};
ghost use Rattle.random_index.specs.Index.{index_of, pair_step};
ghost use Rattle.host_checks.specs.Places.{gate_places, index_status, index_places, pair_places};

use host_numbers::mark;
use random_index::{PackError, Pairs};
use strict::GateError;

// Puts the place of a refusal, and returns its number.
fn refused(number: u32, place: usize, out: &mut [u64; 1]) -> u32
    ensures { (result ≡ number) × (out.new ≡ place ∷ []) }
{
    *out = [place as u64];
    number
}

// The strict gate over a file.
#[unsafe(no_mangle)]
pub extern "C" fn brine_strict(s: &[u8], end: usize, out: &mut [u64; 1]) -> u32
    ensures value { result ≡ number (strict_of s.now end) }
    ensures out_after { out.new ≡ gate_places (strict_of s.now end) out.old }
{
    match strict::check(s, end) {
        Ok(()) => {
            *out = [0];
            0
        }
        Err(GateError::Refused) => 1,
        Err(GateError::Short(p)) => refused(10, p, out),
        Err(GateError::NoKey(p)) => refused(11, p, out),
        Err(GateError::NoLength(p)) => refused(12, p, out),
        Err(GateError::Indefinite(p)) => refused(13, p, out),
        Err(GateError::Past(p)) => refused(14, p, out),
    }
}

// The pairs of a file's random index pack.
#[unsafe(no_mangle)]
pub extern "C" fn brine_random_index(s: &[u8], out: &mut [u64; 2]) -> u32
    ensures value { result ≡ index_status (index_of s.now) }
    ensures out_after { out.new ≡ index_places (index_of s.now) out.old }
{
    match random_index::find(s) {
        Ok(c) => {
            *out = [c.at as u64, c.left as u64];
            0
        }
        Err(PackError::Size) => 7,
        Err(PackError::Label) => 8,
        Err(PackError::Length) => 9,
    }
}

// A step over these pairs.
#[unsafe(no_mangle)]
pub extern "C" fn brine_pair(s: &[u8], at: usize, left: usize, out: &mut [u64; 6]) -> u32
    ensures value { result ≡ 0 }
    ensures out_after { out.new ≡ pair_places left (pair_step s.now left at) out.old }
{
    *out = match (Pairs { at, left }).step(s) {
        Some((p, next)) => [
            1,
            u64::from(p.stream),
            p.offset,
            mark(p.partition),
            next.at as u64,
            next.left as u64,
        ],
        None => [0, 0, 0, 0, at as u64, left as u64],
    };
    0
}
