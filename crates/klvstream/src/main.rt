// Lists what comes on standard input, piece by piece, in constant memory: docs/RULES.md, "L2. A walker fed from the socket".
//
//     klvstream [limit N | end N]
//     klvstream from FILE
//
// The second is the first on the file itself, for a run that hands over standard input by a pipe. A record's line is written as soon as
// its last byte has come. Where a value is missing bytes at the end and the input can be wound back, walking goes on from the value's
// start.
#![tactic(auto)]

ghost use Rattle.std.specs.Prelude.{◌≡◌, ◌+◌, ◌^◌, ◌<◌, ◌≤◌, length, take, IfOk};
ghost use Rattle.io.specs.Counts.{IsPrefixLen};
ghost use Rattle.fed_text.specs.Lines.{piece_lines};
ghost use Rattle.klvstream.specs.Named.{Named};

use fed_states::{FedError, Rest, Shut, State};
use fed_text::Lines;
use offsets::offset_of;
use std::fs;
use std::fs::File;
use std::io::{Print, Read, Seek, SeekFrom};
use std::ops::ControlFlow;
use std::os::unix::fs::FileTypeExt;
use std::rt::{Env, HostRuntime};
use streams::{fail, path_of, read_full, word};

// What the program is asked to list.
#[derive(Clone, Copy, Debug, PartialEq, Eq)]
enum Task {
    // Standard input, of at most so many bytes.
    Limit(usize),
    // Standard input, of exactly so many bytes.
    End(usize),
    // The file that the second word names.
    File,
}

// What its words ask; none is no limit.
fn asked(rt: &impl Env) -> Option<Task> {
    let mut first = [0u8; 8];
    let Some(w) = word(rt, 1, &mut first) else {
        return Some(Task::Limit(usize::MAX));
    };
    let mut digits = [0u8; 20];
    let k = word(rt, 2, &mut digits)?;
    let mut more = [0u8; 1];
    if word(rt, 3, &mut more).is_some() {
        return None;
    }
    if check::same(&first[..w], b"from") {
        return Some(Task::File);
    }
    let bytes = decimals::number(&digits[..k])? as usize;
    if check::same(&first[..w], b"end") {
        return Some(Task::End(bytes));
    }
    check::same(&first[..w], b"limit").then_some(Task::Limit(bytes))
}

// The room for the lines of 65,536 bytes.
const ROOM: usize = 458752;

// What is read at once, and the lines of it.
#[derive(Drop)]
struct Rooms {
    buf: [u8; 65536],
    out: [u8; ROOM],
}

// A walk as it goes: its state, the records so far, and whether it was wound back.
#[derive(Clone, Copy, Debug, PartialEq, Eq)]
struct Walk {
    state: State,
    records: usize,
    wound: bool,
}

// How many bytes to ask for: no more than the state may still take, so that what is listed depends on the bytes and not on how
// they come. Where it may take none, one more would be refused; a walk that was wound back asks for none.
fn wanted(w: Walk) -> usize
    ensures { result ≤ 65536 }
{
    let st = w.state;
    let left = st.limit.saturating_sub(st.at).saturating_sub(st.have);
    if left == 0 {
        return if w.wound { 0 } else { 1 };
    }
    left.min(65536)
}

// Why a walk goes no further.
#[derive(Clone, Copy, Debug, PartialEq, Eq)]
enum Stop {
    // All that there is was read.
    End,
    // A piece was refused.
    Refused(FedError),
    // The system refused to read or write.
    Failed,
}

// Puts the whole of a piece's lines at the start of out.
fn put_whole(out: &mut [u8; ROOM], st: State, piece: &[u8]) -> Result<Lines, FedError>
    requires { length piece.now ≤ 65536 }
    ensures out_after { IfOk result (λ l. take l.at out.new ≡ piece_lines st piece.now) }
    ensures prefix_len { IfOk result (λ l. IsPrefixLen l.at out.new) }
{
    fed_text::put_piece(out, 0, st, piece)
}

// Feeds a piece, and writes its lines.
fn show(rt: &HostRuntime, w: &mut Walk, piece: &[u8], out: &mut [u8; ROOM]) -> ControlFlow<Stop>
    requires { length piece.now ≤ 65536 }
{
    let l = match put_whole(out, w.state, piece) {
        Ok(l) => l,
        Err(e) => return ControlFlow::Break(Stop::Refused(e)),
    };
    if let Err(e) = rt.write_all(&out[..l.at]) {
        fail(rt.stderr(), b"standard output", &e);
        return ControlFlow::Break(Stop::Failed);
    }
    w.state = l.state;
    w.records = w.records.wrapping_add(l.records);
    ControlFlow::Continue(())
}

// Reads once, and shows what came.
fn turn<R: Read>(
    rt: &HostRuntime,
    w: &mut Walk,
    input: &mut R,
    rooms: &mut Rooms,
) -> ControlFlow<Stop> {
    let n = wanted(*w);
    if n == 0 {
        return ControlFlow::Break(Stop::End);
    }
    match input.read(&mut rooms.buf[..n]) {
        Err(e) => {
            fail(rt.stderr(), b"standard input", &e);
            ControlFlow::Break(Stop::Failed)
        }
        Ok(0) => ControlFlow::Break(Stop::End),
        Ok(k) => show(rt, w, &rooms.buf[..k], &mut rooms.out),
    }
}

// Reads to the end of the input. A proved loop has to end, and nothing says that an input does: so its turns are counted, to a
// number that no run comes to.
fn stream<R: Read>(rt: &HostRuntime, w: &mut Walk, input: &mut R, rooms: &mut Rooms) -> Stop {
    for _ in 0..u64::MAX {
        if let ControlFlow::Break(stop) = turn(rt, w, input, rooms) {
            return stop;
        }
    }
    Stop::End
}

// Puts the count and what closing said at the start of out.
fn put_end(out: &mut [u8; ROOM], records: usize, c: Result<Shut, FedError>) -> usize
    ensures { IsPrefixLen result out.new }
{
    fed_text::put_end(out, 0, records, c)
}

// The same where a piece was refused.
fn put_refusal(out: &mut [u8; ROOM], records: usize, n: u32) -> usize
    ensures { IsPrefixLen result out.new }
{
    fed_text::put_refusal(out, 0, records, n)
}

// The place that the system's text on an open file begins with, if it has one: `pos:`, a tab, and the digits of its first line.
fn place_in(text: &[u8]) -> Option<usize> {
    let rest = text.strip_prefix(b"pos:\t")?;
    let end = rest.iter().position(|b| *b == b'\n')?;
    Some(decimals::number(&rest[..end])? as usize)
}

// Whether what a path names can be wound back: a file can, and a pipe can't.
fn winds(rt: &HostRuntime, path: &str) -> bool {
    match fs::metadata(rt, path) {
        Ok(found) => {
            let kind = found.file_type();
            kind.is_file() | kind.is_block_device()
        }
        Err(_) => false,
    }
}

// The place at which standard input stands, where it can be wound back.
fn start_of(rt: &HostRuntime) -> Option<usize> {
    if !winds(rt, "/dev/stdin") {
        return None;
    }
    let Ok(mut said) = File::open(rt, "/proc/self/fdinfo/0") else {
        return None;
    };
    let mut text = [0u8; 64];
    let n = read_full(&mut said, &mut text);
    place_in(&text[..n])
}

// The input that a path names from a place behind its start on, opened once more: where it can be wound back.
fn wound_back(rt: &HostRuntime, path: &str, start: Option<usize>, v: usize) -> Option<File> {
    let to = start?.checked_add(v)?;
    if offset_of(to) < 0 {
        return None;
    }
    let Ok(mut input) = File::open(rt, path) else {
        return None;
    };
    match input.seek(SeekFrom::Start(to as u64)) {
        Ok(_) => Some(input),
        Err(_) => None,
    }
}

// The walk that closing named, from the value's start v on to the end of what came. Its places are those of the whole.
fn onward(rest: Rest) -> State
    requires { rest.from + rest.end < 2 ^ 64 }
{
    let end = fed_states::open_end(rest.from + rest.end);
    let label = end.label;
    fed_states::gone_on(end, rest.from, label)
}

// The rest that closing names of a walk that read all there is.
fn rest_of(state: State) -> Option<Rest>
    ensures { Named result }
{
    let Ok(closed) = fed_states::close(state) else {
        return None;
    };
    closed.rest
}

// Writes the last lines of a walk, but where the system failed.
fn finish(rt: &HostRuntime, w: Walk, stop: Stop, out: &mut [u8; ROOM]) {
    let n = match stop {
        Stop::Failed => return,
        Stop::Refused(e) => put_refusal(out, w.records, e.number()),
        Stop::End => put_end(out, w.records, fed_states::close(w.state)),
    };
    let _ = rt.write_all(&out[..n]);
}

// Lists the input, which starts at a place of its own, if it can be wound back; from a value that is missing bytes on again, if it can.
fn list<R: Read>(
    rt: &HostRuntime,
    state: State,
    input: &mut R,
    path: &str,
    start: Option<usize>,
    rooms: &mut Rooms,
) {
    let mut w = Walk {
        state,
        records: 0,
        wound: false,
    };
    let mut stop = stream(rt, &mut w, input, rooms);
    if stop == Stop::End {
        if let Some(rest) = rest_of(w.state) {
            if let Some(mut again) = wound_back(rt, path, start, rest.from) {
                w.state = onward(rest);
                w.wound = true;
                stop = stream(rt, &mut w, &mut again, rooms);
            }
        }
    }
    finish(rt, w, stop, &mut rooms.out);
}

// Lists the file that the second word names, from its start on.
fn list_named(rt: &HostRuntime, rooms: &mut Rooms) {
    let mut name = io::buffer();
    let k = word(rt, 2, &mut name).unwrap_or(0);
    let path = match path_of(&name[..k]) {
        Ok(path) => path,
        Err(e) => return fail(rt.stderr(), &name[..k], &e),
    };
    match File::open(rt, path) {
        Ok(mut input) => {
            let start = winds(rt, path).then_some(0);
            list(
                rt,
                fed_states::open_limit(usize::MAX),
                &mut input,
                path,
                start,
                rooms,
            );
        }
        Err(e) => fail(rt.stderr(), &name[..k], &e),
    }
}

// Lists standard input, which is of some bytes, at most or exactly.
fn list_input(rt: &HostRuntime, state: State, rooms: &mut Rooms) {
    let start = start_of(rt);
    let mut input = rt.stdin();
    list(rt, state, &mut input, "/dev/stdin", start, rooms);
}

fn main(rt: HostRuntime) {
    let Some(a) = asked(&rt) else {
        let _ = rt.stderr().write_all(b"klvstream [limit N | end N]\n");
        return;
    };
    let mut rooms = Rooms {
        buf: io::large_buffer(),
        out: [0; ROOM],
    };
    match a {
        Task::Limit(bytes) => list_input(&rt, fed_states::open_limit(bytes), &mut rooms),
        Task::End(bytes) => list_input(&rt, fed_states::open_end(bytes), &mut rooms),
        Task::File => list_named(&rt, &mut rooms),
    }
}
