// Writes the outline of standard input: docs/RULES.md, "L4. An outline". Its word is the depth, 8 where there is none. Above
// 65,536 bytes it prints only `too long`.
#![tactic(auto)]

ghost use Rattle.std.specs.Prelude.{◌≡◌, ◌≤◌, length, take};
ghost use Rattle.io.specs.Counts.{IsPrefixLen};
ghost use Rattle.outline.specs.Printed.{depth_of, printed};

use outline_text::outline_into;
use std::io::Print;
use std::rt::Env;
use streams::{read_full, word};
use text::put_all;

// The room for the outline of 65,536 bytes.
const ROOM: usize = 393216;

// The depth that a word is: a digit's number. Any other word is 0, which is refused.
fn depth_of(word: &[u8]) -> usize
    ensures { result ≡ depth_of word.now }
{
    if word.len() != 1 {
        return 0;
    }
    usize::from(word[0].saturating_sub(b'0'))
}

// Puts the whole of what the program prints at the start of out, and answers how long it is.
fn put_whole(s: &[u8], more: bool, depth: usize, out: &mut [u8; ROOM]) -> usize
    requires { length s.now ≤ 65536 }
    ensures out_after { take result out.new ≡ printed s.now more depth }
    ensures prefix_len { IsPrefixLen result out.new }
{
    if more {
        return put_all(out, 0, b"too long\n");
    }
    match outline_into(s, s.len(), depth, out) {
        Ok(n) => n,
        Err(_) => put_all(out, 0, b"refused 6\n"),
    }
}

// Writes the outline of the bytes that were read, or `too long` where there are more.
fn show(to: &impl Print, s: &[u8], more: bool, depth: usize)
    requires { length s.now ≤ 65536 }
{
    let mut out = [0; ROOM];
    let n = put_whole(s, more, depth, &mut out);
    let _ = to.write_all(&out[..n]);
}

// The depth that is asked for.
fn asked(rt: &impl Env) -> usize {
    let mut given = [0u8; 2];
    match word(rt, 1, &mut given) {
        Some(n) => depth_of(&given[..n]),
        None => 8,
    }
}

fn main(rt: HostRuntime) {
    let depth = asked(&rt);
    let mut input = rt.stdin();
    let mut buf = io::large_buffer();
    let n = read_full(&mut input, &mut buf);
    let mut one = [0u8; 1];
    let more = read_full(&mut input, &mut one);
    show(&rt, &buf[..n], more > 0, depth);
}
