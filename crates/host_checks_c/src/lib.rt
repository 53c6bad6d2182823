// What a host links of host_checks: its calls, with the same clauses (library/exports).
#![tactic(auto)]

ghost use Rattle.std.specs.Prelude.{◌≡◌};
ghost use Rattle.steps.specs.Told.{number};
ghost use Rattle.strict.specs.Strict.{strict_of};
ghost use Rattle.random_index.specs.Index.{index_of, pair_step};
ghost use Rattle.host_checks.specs.Places.{gate_places, index_status, index_places, pair_places};

// The strict gate over a file.
#[unsafe(no_mangle)]
pub extern "C" fn brine_strict(s: &[u8], end: usize, out: &mut [u64; 1]) -> u32
    ensures value { result ≡ number (strict_of s.now end) }
    ensures out_after { out.new ≡ gate_places (strict_of s.now end) out.old }
{
    host_checks::brine_strict(s, end, out)
}

// The pairs of a file's random index pack.
#[unsafe(no_mangle)]
pub extern "C" fn brine_random_index(s: &[u8], out: &mut [u64; 2]) -> u32
    ensures value { result ≡ index_status (index_of s.now) }
    ensures out_after { out.new ≡ index_places (index_of s.now) out.old }
{
    host_checks::brine_random_index(s, out)
}

// A step over these pairs.
#[unsafe(no_mangle)]
pub extern "C" fn brine_pair(s: &[u8], at: usize, left: usize, out: &mut [u64; 6]) -> u32
    ensures value { result ≡ 0 }
    ensures out_after { out.new ≡ pair_places left (pair_step s.now left at) out.old }
{
    host_checks::brine_pair(s, at, left, out)
}
