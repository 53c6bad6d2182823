// What a host links of host_frames: its calls, with the same clauses (library/exports).
#![tactic(auto)]

ghost use Rattle.std.specs.Prelude.{◌≡◌};
ghost use Rattle.steps.specs.Next.{cursor};
ghost use Rattle.frame_walks.specs.Frames.{carried, sony_step, sony_arrive, arri_step, arri_arrive, canon_step};
ghost use Rattle.host_frames.specs.Places.{status_of, places_of};

// A step of Sony's frame walk.
#[unsafe(no_mangle)]
pub extern "C" fn brine_sony_step(
    s: &[u8],
    end: usize,
    at: usize,
    since: usize,
    number: u64,
    out: &mut [u64; 10],
) -> u32
    ensures value { result ≡ status_of (sony_step s.now end (cursor at (carried since number))) }
    ensures out_after { out.new ≡ places_of (sony_step s.now end (cursor at (carried since number))) out.old }
{
    host_frames::brine_sony_step(s, end, at, since, number, out)
}

// A step of Sony's arriving frame walk.
#[unsafe(no_mangle)]
pub extern "C" fn brine_sony_arrive(
    a: &[u8],
    limit: usize,
    at: usize,
    since: usize,
    number: u64,
    out: &mut [u64; 10],
) -> u32
    ensures value { result ≡ status_of (sony_arrive limit a.now (cursor at (carried since number))) }
    ensures out_after { out.new ≡ places_of (sony_arrive limit a.now (cursor at (carried since number))) out.old }
{
    host_frames::brine_sony_arrive(a, limit, at, since, number, out)
}

// A step of ARRI's.
#[unsafe(no_mangle)]
pub extern "C" fn brine_arri_step(
    s: &[u8],
    end: usize,
    at: usize,
    since: usize,
    number: u64,
    out: &mut [u64; 10],
) -> u32
    ensures value { result ≡ status_of (arri_step s.now end (cursor at (carried since number))) }
    ensures out_after { out.new ≡ places_of (arri_step s.now end (cursor at (carried since number))) out.old }
{
    host_frames::brine_arri_step(s, end, at, since, number, out)
}

// A step of ARRI's arriving frame walk.
#[unsafe(no_mangle)]
pub extern "C" fn brine_arri_arrive(
    a: &[u8],
    limit: usize,
    at: usize,
    since: usize,
    number: u64,
    out: &mut [u64; 10],
) -> u32
    ensures value { result ≡ status_of (arri_arrive limit a.now (cursor at (carried since number))) }
    ensures out_after { out.new ≡ places_of (arri_arrive limit a.now (cursor at (carried since number))) out.old }
{
    host_frames::brine_arri_arrive(a, limit, at, since, number, out)
}

// A step of Canon's, which gives values beside the frames.
#[unsafe(no_mangle)]
pub extern "C" fn brine_canon_step(
    s: &[u8],
    end: usize,
    at: usize,
    since: usize,
    number: u64,
    out: &mut [u64; 10],
) -> u32
    ensures value { result ≡ status_of (canon_step s.now end (cursor at (carried since number))) }
    ensures out_after { out.new ≡ places_of (canon_step s.now end (cursor at (carried since number))) out.old }
{
    host_frames::brine_canon_step(s, end, at, since, number, out)
}
