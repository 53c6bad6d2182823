// Lists the finished walk over standard input, and its tally: docs/RULES.md, "Tally and listing". Above 65,536 bytes it
// prints only `too long`.
#![tactic(auto)]

ghost use Rattle.std.specs.Prelude.{◌≡◌, ◌≤◌, length, take};
ghost use Rattle.io.specs.Counts.{IsPrefixLen};
ghost use Rattle.listing.specs.Listing.{printed};

use std::io::Print;
use streams::read_full;

// The room for the listing of 65,536 bytes.
const ROOM: usize = 458752;

// Puts the whole of what the program prints at the start of out, and answers how long it is.
fn put_whole(s: &[u8], more: bool, out: &mut [u8; ROOM]) -> usize
    requires { length s.now ≤ 65536 }
    ensures out_after { take result out.new ≡ printed s.now more }
    ensures prefix_len { IsPrefixLen result out.new }
{
    listing::print(out, s, more)
}

// Writes the listing of the bytes that were read, or `too long` where there are more.
fn show(to: &impl Print, s: &[u8], more: bool)
    requires { length s.now ≤ 65536 }
{
    let mut out = [0; ROOM];
    let n = put_whole(s, more, &mut out);
    let _ = to.write_all(&out[..n]);
}

fn main(rt: HostRuntime) {
    let mut input = rt.stdin();
    let mut buf = io::large_buffer();
    let n = read_full(&mut input, &mut buf);
    let mut one = [0u8; 1];
    let more = read_full(&mut input, &mut one);
    show(&rt, &buf[..n], more > 0);
}
