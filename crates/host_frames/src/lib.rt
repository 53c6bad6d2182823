// What a host links of the frame walks: numbers and slices in, a status and lent places out (include/brinethimble.h).
#![tactic(auto)]

ghost use Rattle.std.specs.Prelude.{◌≡◌};
ghost use Rattle.steps.specs.Next.{Cursor, cursor};
ghost use Rattle.frame_walks.specs.Frames.{Carried, carried, sony_step, sony_arrive, arri_step, arri_arrive, canon_step};
ghost use Rattle.frame_walks.specs.Told.{told};
ghost use Rattle.host_frames.specs.Places.{status_of, places_of};

use frame_walks::{Arri, Canon, FrameStep, Place, Sony};
use host_numbers::mark;
use walk::WalkError;

// Puts what a step found, whatever cursor it was given, and answers its status.
fn put(t: Result<FrameStep, WalkError>, out: &mut [u64; 10]) -> u32
    ensures value { (k : Cursor Carried) → result ≡ status_of (told k t) }
    ensures out_after { (k : Cursor Carried) → out.new ≡ places_of (told k t) out.old }
{
    let step = match t {
        Ok(step) => step,
        Err(e) => return e.number(),
    };
    match step {
        FrameStep::Frame(f, passed, next) => {
            let k = f.element;
            let overlong = mark(f.overlong);
            *out = [
                1,
                f.number,
                k.at as u64,
                k.value as u64,
                k.len as u64,
                overlong,
                next.at as u64,
                next.number,
                passed as u64,
                next.since as u64,
            ];
            0
        }
        FrameStep::Given(k, passed, next) => {
            *out = [
                2,
                0,
                k.at as u64,
                k.value as u64,
                k.len as u64,
                0,
                next.at as u64,
                next.number,
                passed as u64,
                next.since as u64,
            ];
            0
        }
        FrameStep::Rests(next) => {
            *out = [
                0,
                0,
                0,
                0,
                0,
                0,
                next.at as u64,
                next.number,
                0,
                next.since as u64,
            ];
            0
        }
    }
}

// A step of Sony's frame walk.
#[unsafe(no_mangle)]
pub extern "C" fn brine_sony_step(
    s: &[u8],
    end: usize,
    at: usize,
    since: usize,
    number: u64,
    out: &mut [u64; 10],
) -> u32
    ensures value { result ≡ status_of (sony_step s.now end (cursor at (carried since number))) }
    ensures out_after { out.new ≡ places_of (sony_step s.now end (cursor at (carried since number))) out.old }
{
    let place = Place { at, since, number };
    put(Sony { place }.step(s, end), out)
}

// A step of Sony's arriving frame walk.
#[unsafe(no_mangle)]
pub extern "C" fn brine_sony_arrive(
    a: &[u8],
    limit: usize,
    at: usize,
    since: usize,
    number: u64,
    out: &mut [u64; 10],
) -> u32
    ensures value { result ≡ status_of (sony_arrive limit a.now (cursor at (carried since number))) }
    ensures out_after { out.new ≡ places_of (sony_arrive limit a.now (cursor at (carried since number))) out.old }
{
    let place = Place { at, since, number };
    put(Sony { place }.arrive(a, limit), out)
}

// A step of ARRI's.
#[unsafe(no_mangle)]
pub extern "C" fn brine_arri_step(
    s: &[u8],
    end: usize,
    at: usize,
    since: usize,
    number: u64,
    out: &mut [u64; 10],
) -> u32
    ensures value { result ≡ status_of (arri_step s.now end (cursor at (carried since number))) }
    ensures out_after { out.new ≡ places_of (arri_step s.now end (cursor at (carried since number))) out.old }
{
    let place = Place { at, since, number };
    put(Arri { place }.step(s, end), out)
}

// A step of ARRI's arriving frame walk.
#[unsafe(no_mangle)]
pub extern "C" fn brine_arri_arrive(
    a: &[u8],
    limit: usize,
    at: usize,
    since: usize,
    number: u64,
    out: &mut [u64; 10],
) -> u32
    ensures value { result ≡ status_of (arri_arrive limit a.now (cursor at (carried since number))) }
    ensures out_after { out.new ≡ places_of (arri_arrive limit a.now (cursor at (carried since number))) out.old }
{
    let place = Place { at, since, number };
    put(Arri { place }.arrive(a, limit), out)
}

// A step of Canon's, which gives values beside the frames.
#[unsafe(no_mangle)]
pub extern "C" fn brine_canon_step(
    s: &[u8],
    end: usize,
    at: usize,
    since: usize,
    number: u64,
    out: &mut [u64; 10],
) -> u32
    ensures value { result ≡ status_of (canon_step s.now end (cursor at (carried since number))) }
    ensures out_after { out.new ≡ places_of (canon_step s.now end (cursor at (carried since number))) out.old }
{
    let place = Place { at, since, number };
    put(Canon { place }.step(s, end), out)
}
