// What a host links of the tally (include/brinethimble.h). It stands apart from the lists of records, so that their loop takes the
// walk's step in.
#![tactic(auto)]

ghost use Rattle.std.specs.Prelude.{◌≡◌};
ghost use Rattle.tally.specs.Groups.{groups_of, answer_of, front};
ghost use Rattle.host_tally.specs.Places.{tally_places};

// The records of the finished walk over all of s, grouped by same label.
#[unsafe(no_mangle)]
pub extern "C" fn brine_tally(
    s: &[u8],
    firsts: &mut [usize; 64],
    counts: &mut [usize; 64],
    out: &mut [u64; 2],
) -> u32
    ensures value { result ≡ 0 }
    ensures firsts_after { firsts.new ≡ front (groups_of s.now).firsts firsts.old }
    ensures counts_after { counts.new ≡ front (groups_of s.now).counts counts.old }
    ensures out_after { out.new ≡ tally_places (answer_of (groups_of s.now)) }
{
    let t = tally::count_all(s, firsts, counts);
    *out = [t.groups as u64, t.other as u64];
    0
}
