// What a host links of host_walk: its calls, with the same clauses (library/exports).
#![tactic(auto)]

ghost use Rattle.std.specs.Prelude.{◌≡◌};
ghost use Rattle.steps.specs.Told.{number};
ghost use Rattle.lengths.specs.Length.{length_at};
ghost use Rattle.labels.specs.Label.{same_label};
ghost use Rattle.search.specs.Search.{next_key};
ghost use Rattle.items.specs.Items.{item_step, run_step};
ghost use Rattle.steps.specs.Next as at;
ghost use Rattle.steps.specs.Next.{cursor};
ghost use Rattle.walk.specs.Passed.{finished_passing, arriving_passing};
ghost use Rattle.host_walk.specs.Places.{item_places, step_places, length_places};

// The BER length at a place.
#[unsafe(no_mangle)]
pub extern "C" fn brine_length(s: &[u8], at: usize, out: &mut [u64; 4]) -> u32
    ensures value { result ≡ 0 }
    ensures out_after { out.new ≡ length_places (length_at s.now at) }
{
    host_walk::brine_length(s, at, out)
}

// Whether two labels are the same.
#[unsafe(no_mangle)]
pub extern "C" fn brine_same_label(a: &[u8], b: &[u8]) -> bool
    ensures { result ≡ same_label a.now b.now }
{
    host_walk::brine_same_label(a, b)
}

// The first place from `from` on where 06 0e 2b 34 stand wholly before the end.
#[unsafe(no_mangle)]
pub extern "C" fn brine_next_key(s: &[u8], end: usize, from: usize) -> usize
    ensures { result ≡ next_key s.now end from }
{
    host_walk::brine_next_key(s, end, from)
}

// A step of the finished walk.
#[unsafe(no_mangle)]
pub extern "C" fn brine_step(
    s: &[u8],
    end: usize,
    at: usize,
    since: usize,
    out: &mut [u64; 9],
) -> u32
    ensures value { result ≡ number (finished_passing s.now end (cursor at since)) }
    ensures out_after { out.new ≡ step_places (finished_passing s.now end (cursor at since)) out.old }
{
    host_walk::brine_step(s, end, at, since, out)
}

// A step of the arriving walk.
#[unsafe(no_mangle)]
pub extern "C" fn brine_arrive(
    a: &[u8],
    limit: usize,
    at: usize,
    since: usize,
    out: &mut [u64; 9],
) -> u32
    ensures value { result ≡ number (arriving_passing limit a.now (cursor at since)) }
    ensures out_after { out.new ≡ step_places (arriving_passing limit a.now (cursor at since)) out.old }
{
    host_walk::brine_arrive(a, limit, at, since, out)
}

// A step of a run.
#[unsafe(no_mangle)]
pub extern "C" fn brine_run(s: &[u8], at: usize, out: &mut [u64; 7]) -> u32
    ensures value { result ≡ 0 }
    ensures out_after { out.new ≡ item_places (run_step s.now at) out.old }
{
    host_walk::brine_run(s, at, out)
}

// A step over a set's items.
#[unsafe(no_mangle)]
pub extern "C" fn brine_item(s: &[u8], tag: usize, ber: bool, at: usize, out: &mut [u64; 7]) -> u32
    ensures value { result ≡ 0 }
    ensures out_after { out.new ≡ item_places (item_step tag ber s.now at) out.old }
{
    host_walk::brine_item(s, tag, ber, at, out)
}
