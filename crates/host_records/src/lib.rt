// What a host links of the lists: as many records of a walk as there is lent room for (include/brinethimble.h).
#![tactic(auto)]

ghost use Rattle.std.specs.Prelude.{◌≡◌, ◌+◌, ◌/◌, ◌≤◌, ◌<◌, length};
ghost use Rattle.steps.specs.Told.{number};
ghost use Rattle.steps.specs.Next.{cursor};
ghost use Rattle.walk.specs.Passed.{finished_passing, arriving_passing};
ghost use Rattle.walk.specs.Told.{cursor_of, step_on};
ghost use Rattle.host_records.specs.Batch.{places_each, record_put, records_put, batch_at, batch, batch_of, batch_into, batch_places};

use host_numbers::mark;
use klv::Klv;
use walk::{Cursor, Step, Way};

// How many records were put, where the next step starts, and where walking last went on.
#[derive(Clone, Copy, Debug, PartialEq, Eq)]
pub struct Batch {
    pub count: usize,
    pub next: usize,
    pub since: usize,
}

// How many places a record takes.
const PLACES_EACH: usize = 6;

// Puts a record's places.
fn put_record(records: &mut [u64], at: usize, k: Klv, passed: usize)
    requires { at + 5 < length records.old }
    ensures { records.new ≡ record_put k passed at records.old }
{
    let shortest = mark(k.shortest);
    records[at] = k.at as u64;
    records[at + 1] = k.value as u64;
    records[at + 2] = k.len as u64;
    records[at + 3] = k.size as u64;
    records[at + 4] = shortest;
    records[at + 5] = passed as u64;
}

// So many records, and the cursor behind them.
fn so_far(count: usize, k: Cursor) -> Batch
    ensures { result ≡ batch_at count (cursor_of k) }
{
    Batch {
        count,
        next: k.at,
        since: k.since,
    }
}

// Puts the records of a walk from a cursor on, as many as there is room for.
fn put_records(s: &[u8], way: Way, from: Cursor, records: &mut [u64]) -> Batch
    ensures value { result ≡ batch_of (step_on way s.now) (length records.old / places_each) (cursor_of from) }
    ensures records_after { records.new ≡ records_put (batch (step_on way s.now) records.old (cursor_of from)) 0 records.old }
{
    let mut k = from;
    let room = records.len() / PLACES_EACH;
    for count in 0..room {
        let Ok(step) = k.on(s, way) else {
            return so_far(count, k);
        };
        match step {
            Step::Rests(c) => return so_far(count, c),
            Step::Record(r, passed, c) => {
                put_record(records, PLACES_EACH * count, r, passed);
                k = c;
            }
        }
    }
    so_far(room, k)
}

// The same, and what the batch comes to; the walk's refusal where it has one.
fn put_batch(s: &[u8], way: Way, from: Cursor, records: &mut [u64], out: &mut [u64; 3]) -> u32
    ensures value { result ≡ number (step_on way s.now (cursor_of from)) }
    ensures records_after { records.new ≡ batch_into (step_on way s.now) (cursor_of from) records.old (step_on way s.now (cursor_of from)) }
    ensures out_after { out.new ≡ batch_places (step_on way s.now) (length records.old / places_each) (cursor_of from) out.old (step_on way s.now (cursor_of from)) }
{
    if let Err(e) = way.bounds(s) {
        return e.number();
    }
    let b = put_records(s, way, from, records);
    *out = [b.count as u64, b.next as u64, b.since as u64];
    0
}

// Steps of the finished walk until the room is full or the walk is over.
#[unsafe(no_mangle)]
pub extern "C" fn brine_records(
    s: &[u8],
    end: usize,
    at: usize,
    since: usize,
    records: &mut [u64],
    out: &mut [u64; 3],
) -> u32
    ensures value { result ≡ number (finished_passing s.now end (cursor at since)) }
    ensures records_after { records.new ≡ batch_into (finished_passing s.now end) (cursor at since) records.old (finished_passing s.now end (cursor at since)) }
    ensures out_after { out.new ≡ batch_places (finished_passing s.now end) (length records.old / places_each) (cursor at since) out.old (finished_passing s.now end (cursor at since)) }
{
    put_batch(s, Way::Finished(end), Cursor { at, since }, records, out)
}

// Steps of the arriving walk until the room is full or the walk waits.
#[unsafe(no_mangle)]
pub extern "C" fn brine_arrivals(
    a: &[u8],
    limit: usize,
    at: usize,
    since: usize,
    records: &mut [u64],
    out: &mut [u64; 3],
) -> u32
    ensures value { result ≡ number (arriving_passing limit a.now (cursor at since)) }
    ensures records_after { records.new ≡ batch_into (arriving_passing limit a.now) (cursor at since) records.old (arriving_passing limit a.now (cursor at since)) }
    ensures out_after { out.new ≡ batch_places (arriving_passing limit a.now) (length records.old / places_each) (cursor at since) out.old (arriving_passing limit a.now (cursor at since)) }
{
    put_batch(a, Way::Arriving(limit), Cursor { at, since }, records, out)
}
