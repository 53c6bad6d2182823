// Compares two recordings of one take: docs/RULES.md, "L14. Two recordings of one take".
//
//     takediff MAIN BACKUP
//
// Both files are fed to ARRI's frame walk in pieces of at most 65,536 bytes, and a frame's element, of at most 8,192, is read for its
// values. Standard output has the lines of each difference. What goes wrong is said on standard error, and ends the program.
#![tactic(auto)]

ghost use Rattle.std.specs.Prelude.{◌≡◌, ◌≤◌, length, take};
ghost use Rattle.io.specs.Counts.{IsPrefixLen};
ghost use Rattle.takes_text.specs.Lines.{difference_lines};

use std::fs::File;
use std::io::{Print, Seek, SeekFrom};
use std::rt::{Env, Files, HostRuntime};
use streams::{fail, path_of, word};
use takes::{Difference, Stop, Takes};
use tapes::Tape;

// Whether the program was given an i-th word.
fn given(rt: &HostRuntime, i: usize) -> bool {
    let mut first = [0u8; 1];
    word(rt, i, &mut first).is_some()
}

// Opens the file of a name for reading.
fn open(rt: &HostRuntime, name: &[u8]) -> std::io::Result<File> {
    match path_of(name) {
        Ok(path) => File::open(rt, path),
        Err(e) => Err(e),
    }
}

// The place of a file's end.
fn end_of(file: &File) -> std::io::Result<u64> {
    let mut f = file;
    f.seek(SeekFrom::End(0))
}

// The file that a word names, none where it can't be opened.
fn opened(rt: &HostRuntime, i: usize) -> Tape {
    let mut name = io::buffer();
    let k = word(rt, i, &mut name).unwrap_or(0);
    let file = match open(rt, &name[..k]) {
        Ok(file) => file,
        Err(e) => {
            fail(rt.stderr(), &name[..k], &e);
            return tapes::unread(None, 0);
        }
    };
    match end_of(&file) {
        Ok(end) => tapes::unread(Some(file), end as usize),
        Err(e) => {
            fail(rt.stderr(), &name[..k], &e);
            tapes::unread(None, 0)
        }
    }
}

// Puts the whole of a difference's lines at the start of out.
fn put_whole(out: &mut [u8], d: Difference) -> usize
    requires { 4096 ≤ length out.old }
    ensures out_after { take result out.new ≡ difference_lines d }
    ensures prefix_len { IsPrefixLen result out.new }
{
    takes_text::put_difference(out, 0, d)
}

// Writes a difference's lines: whether they could be.
fn show(rt: &HostRuntime, d: Difference) -> bool {
    let mut out = io::buffer();
    let n = put_whole(&mut out, d);
    match rt.write_all(&out[..n]) {
        Ok(()) => true,
        Err(e) => {
            fail(rt.stderr(), b"standard output", &e);
            false
        }
    }
}

// Shows what differs at a number, and answers where both files go on: none where they don't.
fn meet(rt: &HostRuntime, t: Takes, x: Option<Stop>, y: Option<Stop>) -> Option<Takes> {
    match takes::meet(t, x, y)? {
        (None, u) => Some(u),
        (Some(d), u) => show(rt, d).then_some(u),
    }
}

// Both files as they are compared.
#[derive(Drop)]
struct Pair {
    main: Tape,
    backup: Tape,
    takes: Takes,
}

// Compares the next number: none where the files end, or one of them failed.
fn number(
    rt: &HostRuntime,
    p: Pair,
    main: &mut [u8; 65536],
    backup: &mut [u8; 65536],
) -> Option<Pair> {
    let x = tapes::next(rt.stderr(), p.main, main);
    let y = tapes::next(rt.stderr(), p.backup, backup);
    let takes = meet(rt, p.takes, x.side.ok()?, y.side.ok()?)?;
    Some(Pair {
        main: x.tape,
        backup: y.tape,
        takes,
    })
}

// Compares two files, number by number.
fn compare(rt: &HostRuntime, first: Pair, main: &mut [u8; 65536], backup: &mut [u8; 65536]) {
    let mut p = first;
    for _ in 0..u64::MAX {
        let Some(next) = number(rt, p, main, backup) else {
            return;
        };
        p = next;
    }
}

fn main(rt: HostRuntime) {
    if !given(&rt, 2) | given(&rt, 3) {
        let _ = rt.stderr().write_all(b"takediff MAIN BACKUP\n");
        return;
    }
    let a = opened(&rt, 1);
    let b = opened(&rt, 2);
    if a.file.is_none() | b.file.is_none() {
        return;
    }
    let first = Pair {
        main: a,
        backup: b,
        takes: Takes {
            main: 0,
            backup: 0,
            number: 0,
        },
    };
    let mut main = io::large_buffer();
    let mut backup = io::large_buffer();
    compare(&rt, first, &mut main, &mut backup);
}
