// A fed walker's records as text, and how it ended: docs/RULES.md, "L2. A walker fed from the socket". A record's line is as the
// listing's: `1 060e2b340101010d0e15000100010000 18 2 1`. Behind all lines come their count and `clean`, `again V REST` or
// `refused N`.
#![tactic(auto)]

ghost use Rattle.std.specs.Prelude.{◌≡◌, [], ◌∷◌, ◌++◌, IfOk, OnErr};
ghost use Rattle.steps.specs.Told.{number};
ghost use Rattle.text.specs.Write.{Put};
ghost use Rattle.klv_text.specs.Text.{record_text};
ghost use Rattle.listing.specs.Listing.{count_line};
ghost use Rattle.fed_states.specs.declared.State.{State};
ghost use Rattle.fed_states.specs.Close.{close_told};
ghost use Rattle.fed_bytes.specs.Feed.{feed_of};
ghost use Rattle.fed_pieces.specs.Pieces.{refused_as};
ghost use Rattle.fed_text.specs.Lines.{Lists, again_line, refused_line, ending_line};

use fed::feed;
use fed_pieces::admit;
use fed_states::{FedError, Shut, State};
use klv::Klv;
use klv_text::put_record;
use listing::put_count;
use text::{put_all, put_byte, put_decimal};

// Puts a record's line.
fn put_line(out: &mut [u8], at: usize, label: &[u8; 16], k: Klv, passed: usize) -> usize
    ensures { Put (record_text 32 label.now k passed ++ (10 ∷ [])) out.old at out.new result }
{
    let a = put_record(out, at, label, k, passed, b' ');
    put_byte(out, a, b'\n')
}

// The state behind a piece, how many records it had, and the place after their lines.
#[derive(Clone, Copy, Debug, PartialEq, Eq)]
pub struct Lines {
    pub state: State,
    pub records: usize,
    pub at: usize,
}

// Feeds all of a piece, and puts a line for each record; none where the piece is refused.
pub fn put_piece(out: &mut [u8], at: usize, st: State, piece: &[u8]) -> Result<Lines, FedError>
    ensures refusal { refused_as result ≡ number (feed_of st piece.now) }
    ensures ok { IfOk result (Lists st piece.now out.old at out.new) }
    ensures err { OnErr result (out.new ≡ out.old) }
{
    admit(st, piece.len())?;
    let mut s = st;
    let mut i = 0;
    let mut records = 0;
    let mut p = at;
    loop {
        let f = feed(s, &piece[i..]).unwrap();
        s = f.state;
        i += f.taken;
        let Some((k, passed)) = f.found else {
            return Ok(Lines {
                state: s,
                records,
                at: p,
            });
        };
        let label = s.label;
        p = put_line(out, p, &label, k, passed);
        records += 1;
    }
}

// Puts `refused N`.
fn put_refused(out: &mut [u8], at: usize, n: u32) -> usize
    ensures { Put (refused_line n) out.old at out.new result }
{
    let a = put_all(out, at, b"refused ");
    let b = put_decimal(out, a, n as u64);
    put_byte(out, b, b'\n')
}

// Puts `again V REST`.
fn put_again(out: &mut [u8], at: usize, v: usize, rest: usize) -> usize
    ensures { Put (again_line v rest) out.old at out.new result }
{
    let a = put_all(out, at, b"again ");
    let b = put_decimal(out, a, v as u64);
    let c = put_byte(out, b, b' ');
    let d = put_decimal(out, c, rest as u64);
    put_byte(out, d, b'\n')
}

// Puts what closing said.
fn put_ending(out: &mut [u8], at: usize, s: Result<Shut, FedError>) -> usize
    ensures { (st : State) → Put (ending_line (close_told st s)) out.old at out.new result }
{
    let closed = match s {
        Ok(closed) => closed,
        Err(e) => return put_refused(out, at, e.number()),
    };
    match closed.rest {
        None => put_all(out, at, b"clean\n"),
        Some(r) => put_again(out, at, r.from, r.end),
    }
}

// Puts the count of all records, and then what closing said.
pub fn put_end(out: &mut [u8], at: usize, records: usize, s: Result<Shut, FedError>) -> usize
    ensures { (st : State) → Put (count_line records ++ ending_line (close_told st s)) out.old at out.new result }
{
    let a = put_count(out, at, records);
    put_ending(out, a, s)
}

// Puts the count of all records, and then the number by which a piece was refused.
pub fn put_refusal(out: &mut [u8], at: usize, records: usize, n: u32) -> usize
    ensures { Put (count_line records ++ refused_line n) out.old at out.new result }
{
    let a = put_count(out, at, records);
    put_refused(out, a, n)
}
