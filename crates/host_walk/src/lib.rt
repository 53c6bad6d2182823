// What a host links of the walk: numbers and slices in, a status and lent places out (include/brinethimble.h).
#![tactic(auto)]

ghost use Rattle.std.specs.Prelude.{ℕ, ◌≡◌, List};
ghost use Rattle.steps.specs.Told.{number};
ghost use Rattle.lengths.specs.Length.{length_at};
ghost use Rattle.labels.specs.Label.{same_label};
ghost use Rattle.search.specs.Search.{next_key};
ghost use Rattle.items.specs.Items.{item_step, run_step};
ghost use Rattle.steps.specs.Next as at;
ghost use Rattle.steps.specs.Next.{cursor};
ghost use Rattle.walk.specs.Passed.{finished_passing, arriving_passing};
ghost use Rattle.walk.specs.Told.{told};
ghost use Rattle.host_walk.specs.Places.{klv_places, item_places, step_places, length_places};

use host_numbers::mark;
use items::{Coding, Local, Run};
use klv::Klv;
use lengths::NoLength;
use walk::{Cursor, Step, WalkError};

// Puts what a step found: a KLV, and the next cursor. brine_run and brine_item have the same match around it, over two types: one
// function for both would need a closure in each, and is no shorter.
fn put(k: Klv, next: usize, out: &mut [u64; 7])
    ensures { out.new ≡ klv_places k next }
{
    let shortest = mark(k.shortest);
    *out = [
        1,
        k.at as u64,
        k.value as u64,
        k.len as u64,
        next as u64,
        k.size as u64,
        shortest,
    ];
}

// The BER length at a place.
#[unsafe(no_mangle)]
pub extern "C" fn brine_length(s: &[u8], at: usize, out: &mut [u64; 4]) -> u32
    ensures value { result ≡ 0 }
    ensures out_after { out.new ≡ length_places (length_at s.now at) }
{
    *out = match lengths::read(s, at) {
        Ok(f) => [1, f.value, f.size as u64, mark(f.shortest)],
        Err(NoLength::Cut) => [2, 0, 0, 0],
        Err(NoLength::Invalid) => [0, 0, 0, 0],
    };
    0
}

// Whether two labels are the same.
#[unsafe(no_mangle)]
pub extern "C" fn brine_same_label(a: &[u8], b: &[u8]) -> bool
    ensures { result ≡ same_label a.now b.now }
{
    labels::same_label(a, b)
}

// The first place from `from` on where 06 0e 2b 34 stand wholly before the end.
#[unsafe(no_mangle)]
pub extern "C" fn brine_next_key(s: &[u8], end: usize, from: usize) -> usize
    ensures { result ≡ next_key s.now end from }
{
    search::next_key(s, end, from)
}

// Puts what a walk's step found, whatever cursor it was given, and answers its status.
fn put_step(t: Result<Step, WalkError>, out: &mut [u64; 9]) -> u32
    ensures by_index { (s : List ℕ) (k : at.Cursor ℕ) → result ≡ number (told s k t) }
    ensures by_index_2 { (s : List ℕ) (k : at.Cursor ℕ) → out.new ≡ step_places (told s k t) out.old }
{
    let step = match t {
        Ok(step) => step,
        Err(e) => return e.number(),
    };
    match step {
        Step::Record(k, passed, next) => {
            let shortest = mark(k.shortest);
            *out = [
                1,
                k.at as u64,
                k.value as u64,
                k.len as u64,
                next.at as u64,
                k.size as u64,
                shortest,
                passed as u64,
                next.since as u64,
            ];
            0
        }
        Step::Rests(next) => {
            *out = [0, 0, 0, 0, next.at as u64, 0, 0, 0, next.since as u64];
            0
        }
    }
}

// A step of the finished walk.
#[unsafe(no_mangle)]
pub extern "C" fn brine_step(
    s: &[u8],
    end: usize,
    at: usize,
    since: usize,
    out: &mut [u64; 9],
) -> u32
    ensures value { result ≡ number (finished_passing s.now end (cursor at since)) }
    ensures out_after { out.new ≡ step_places (finished_passing s.now end (cursor at since)) out.old }
{
    put_step(Cursor { at, since }.step(s, end), out)
}

// A step of the arriving walk.
#[unsafe(no_mangle)]
pub extern "C" fn brine_arrive(
    a: &[u8],
    limit: usize,
    at: usize,
    since: usize,
    out: &mut [u64; 9],
) -> u32
    ensures value { result ≡ number (arriving_passing limit a.now (cursor at since)) }
    ensures out_after { out.new ≡ step_places (arriving_passing limit a.now (cursor at since)) out.old }
{
    put_step(Cursor { at, since }.arrive(a, limit), out)
}

// A step of a run.
#[unsafe(no_mangle)]
pub extern "C" fn brine_run(s: &[u8], at: usize, out: &mut [u64; 7]) -> u32
    ensures value { result ≡ 0 }
    ensures out_after { out.new ≡ item_places (run_step s.now at) out.old }
{
    let run = Run { at };
    match run.step(s) {
        Some((k, next)) => put(k, next.at, out),
        None => *out = [0, 0, 0, 0, at as u64, 0, 0],
    }
    0
}

// A step over a set's items.
#[unsafe(no_mangle)]
pub extern "C" fn brine_item(s: &[u8], tag: usize, ber: bool, at: usize, out: &mut [u64; 7]) -> u32
    ensures value { result ≡ 0 }
    ensures out_after { out.new ≡ item_places (item_step tag ber s.now at) out.old }
{
    let items = Local { at };
    match items.step(s, Coding { tag, ber }) {
        Some((k, next)) => put(k, next.at, out),
        None => *out = [0, 0, 0, 0, at as u64, 0, 0],
    }
    0
}
