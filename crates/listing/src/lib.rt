// The listing's text: docs/RULES.md, "Tally and listing". A line for each record of the finished walk, their count, a line for
// each group of the tally, and how many are other.
#![tactic(auto)]

ghost use Rattle.std.specs.Prelude.{◌≡◌, length};
ghost use Rattle.text.specs.Write.{Put};
ghost use Rattle.records.specs.Records.{finished};
ghost use Rattle.records.specs.Passed.{at_first, finished_passed};
ghost use Rattle.tally.specs.Groups.{groups_of};
ghost use Rattle.listing.specs.Listing.{record_lines, count_line, other_line, tally_lines, listing_of, printed};

use klv_text::put_record;
use tally_text::Around;
use text::{put_all, put_byte, put_decimal};
use walk::{Cursor, Step};

// How many records there are, and the place after their lines.
#[derive(Clone, Copy, Debug, PartialEq, Eq)]
struct Lines {
    records: usize,
    at: usize,
}

// Puts a line for each record of the finished walk over s.
fn put_records(out: &mut [u8], at: usize, s: &[u8]) -> Lines
    ensures records_value { result.records ≡ length (finished s.now) }
    ensures put { Put (record_lines (finished_passed s.now (length s.now) at_first)) out.old at out.new result.at }
{
    let mut records = 0;
    let mut p = at;
    let mut k = Cursor { at: 0, since: 0 };
    while let Step::Record(r, passed, next) = k.step(s, s.len()).unwrap() {
        let a = put_record(out, p, r.label(s), r, passed, b' ');
        p = put_byte(out, a, b'\n');
        records += 1;
        k = next;
    }
    Lines { records, at: p }
}

// Puts `records N`.
pub fn put_count(out: &mut [u8], at: usize, n: usize) -> usize
    ensures { Put (count_line n) out.old at out.new result }
{
    let a = put_all(out, at, b"records ");
    let b = put_decimal(out, a, n as u64);
    put_byte(out, b, b'\n')
}

// Puts `other N`, where N is above 0.
fn put_other(out: &mut [u8], at: usize, n: usize) -> usize
    ensures { Put (other_line n) out.old at out.new result }
{
    if n == 0 {
        return at;
    }
    let a = put_all(out, at, b"other ");
    let b = put_decimal(out, a, n as u64);
    put_byte(out, b, b'\n')
}

// Puts the tally's lines.
fn put_tally(out: &mut [u8], at: usize, s: &[u8]) -> usize
    ensures { Put (tally_lines s.now (groups_of s.now)) out.old at out.new result }
{
    let line = Around {
        before: b"label ",
        between: b' ',
        behind: b'\n',
    };
    let t = tally_text::put_tally(out, at, line, s);
    put_other(out, t.at, t.other)
}

// Puts the whole listing of s at the start of out, as much of it as there is room for.
pub fn list(out: &mut [u8], s: &[u8]) -> usize
    ensures { Put (listing_of s.now) out.old 0 out.new result }
{
    let l = put_records(out, 0, s);
    let a = put_count(out, l.at, l.records);
    put_tally(out, a, s)
}

// Puts what the program prints at the start of out: the listing of the bytes s that it read, or `too long` where there are
// more behind them.
pub fn print(out: &mut [u8], s: &[u8], more: bool) -> usize
    ensures { Put (printed s.now more) out.old 0 out.new result }
{
    if more {
        return put_all(out, 0, b"too long\n");
    }
    list(out, s)
}
