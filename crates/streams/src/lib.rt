// What a program is given and what it says of a failure: its words, the path that a word is, standard input read to the end of a room,
// and the line on what the system refused. All of it goes by lent room.
#![tactic(auto)]

ghost use Rattle.std.specs.Prelude.{◌≡◌, ◌≤◌, length, IfSome, MatchResult};
ghost use Rattle.std.specs.Str.{IsUtf8};
ghost use Rattle.io.specs.Counts.{IsPrefixLen};
ghost use Rattle.streams.specs.Failures.{Tells};

use std::env::FillError;
use std::io::{Cursor, Error, Print, Read, Stderr, Write};
use std::rt::Env;
use text::{put_all, put_byte};

// Puts the program's i-th word at the start of buf, and answers how long it is: 0 where it is longer than buf, and none where there is
// no such word. Word 0 is the program's own name.
pub fn word(rt: &impl Env, i: usize, buf: &mut [u8]) -> Option<usize>
    ensures { IfSome result (λ n. IsPrefixLen n buf.new) }
{
    match rt.arg(i, buf) {
        Ok(n) => Some(n),
        Err(FillError::TooLong) => Some(0),
        Err(FillError::NotPresent) => None,
    }
}

// Reads once into buf: how many bytes came, 0 at the end and where the read fails.
fn read_some<R: Read>(from: &mut R, buf: &mut [u8]) -> usize
    ensures { result ≤ length buf.new }
{
    from.read(buf).unwrap_or(0)
}

// Reads until buf is full, the input ends or a read fails: how many bytes came. The loop counts them by hand: it goes
// through no list of items, read_exact doesn't say how many came before the end, and read_to_end needs a heap.
pub fn read_full<R: Read>(from: &mut R, buf: &mut [u8]) -> usize
    ensures { IsPrefixLen result buf.new }
{
    let mut done = 0;
    while done < buf.len() {
        let n = read_some(from, &mut buf[done..]);
        if n == 0 {
            break;
        }
        done += n;
    }
    done
}

// How much of an error's text is what the system says of it: what stands before the number.
fn said(text: &[u8]) -> usize
    ensures { IsPrefixLen result text.now }
{
    let number = b" (os error ";
    text.windows(number.len())
        .position(|w| w.starts_with(number))
        .unwrap_or(text.len())
}

// Puts the line on a failure: what failed, a colon and what the system says of it.
pub fn put_failure(out: &mut [u8], at: usize, what: &[u8], error: &Error) -> usize
    ensures { Tells what.now out.old at out.new result }
{
    let mut text = Cursor::new([0u8; 320]);
    let _ = write!(text, "{error}");
    let n = text.position() as usize;
    let bytes = text.into_inner();
    let k = if n <= 320 { said(&bytes[..n]) } else { 0 };
    let p = put_all(out, at, what);
    let q = put_all(out, p, b": ");
    let r = put_all(out, q, &bytes[..k]);
    put_byte(out, r, b'\n')
}

// Writes the line on a failure to standard error: there is room for a name of 4,096 bytes and what the system says of it. Where even
// that fails, nothing more is said.
pub fn fail(to: Stderr, what: &[u8], error: &Error) {
    let mut out = [0u8; 4480];
    let n = put_failure(&mut out, 0, what, error);
    let _ = to.write_all(&out[..n]);
}

// The system's number for a name that is no text.
const NO_TEXT: i32 = 84;

// The path that a name is, and the system's error where the name is no text.
pub fn path_of(name: &[u8]) -> Result<&str, Error>
    ensures { MatchResult result (λ path. path.now ≡ name.now) (λ _. ¬ (IsUtf8 name.now)) }
{
    match str::from_utf8(name) {
        Ok(path) => Ok(path),
        Err(_) => Err(Error::from_raw_os_error(NO_TEXT)),
    }
}
