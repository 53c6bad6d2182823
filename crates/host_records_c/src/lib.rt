// What a host links of host_records: its calls, with the same clauses (library/exports).
#![tactic(auto)]

ghost use Rattle.std.specs.Prelude.{◌≡◌, ◌/◌, length};
ghost use Rattle.steps.specs.Told.{number};
ghost use Rattle.steps.specs.Next.{cursor};
ghost use Rattle.walk.specs.Passed.{finished_passing, arriving_passing};
ghost use Rattle.host_records.specs.Batch.{places_each, batch_into, batch_places};

// Steps of the finished walk until the room is full or the walk is over.
#[unsafe(no_mangle)]
pub extern "C" fn brine_records(
    s: &[u8],
    end: usize,
    at: usize,
    since: usize,
    records: &mut [u64],
    out: &mut [u64; 3],
) -> u32
    ensures value { result ≡ number (finished_passing s.now end (cursor at since)) }
    ensures records_after { records.new ≡ batch_into (finished_passing s.now end) (cursor at since) records.old (finished_passing s.now end (cursor at since)) }
    ensures out_after { out.new ≡ batch_places (finished_passing s.now end) (length records.old / places_each) (cursor at since) out.old (finished_passing s.now end (cursor at since)) }
{
    host_records::brine_records(s, end, at, since, records, out)
}

// Steps of the arriving walk until the room is full or the walk waits.
#[unsafe(no_mangle)]
pub extern "C" fn brine_arrivals(
    a: &[u8],
    limit: usize,
    at: usize,
    since: usize,
    records: &mut [u64],
    out: &mut [u64; 3],
) -> u32
    ensures value { result ≡ number (arriving_passing limit a.now (cursor at since)) }
    ensures records_after { records.new ≡ batch_into (arriving_passing limit a.now) (cursor at since) records.old (arriving_passing limit a.now (cursor at since)) }
    ensures out_after { out.new ≡ batch_places (arriving_passing limit a.now) (length records.old / places_each) (cursor at since) out.old (arriving_passing limit a.now (cursor at since)) }
{
    host_records::brine_arrivals(a, limit, at, since, records, out)
}
