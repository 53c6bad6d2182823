// A walk's record as text, as the listing has it: `1 060e2b340101010d0e15000100010000 18 2 1` is the record at 1 whose value is
// the 2 bytes from 18 on, 1 byte having been passed before it.
#![tactic(auto)]

ghost use Rattle.klv_text.specs.Text.{record_text};
ghost use Rattle.text.specs.Write.{Put};

use klv::Klv;
use text::{put_byte, put_decimal, put_hex};

// Puts a record: its place, its label, the place of its value and how long that is, and the bytes passed before it, with a byte
// between them.
pub fn put_record(
    out: &mut [u8],
    at: usize,
    label: &[u8],
    k: Klv,
    passed: usize,
    between: u8,
) -> usize
    ensures { Put (record_text between label.now k passed) out.old at out.new result }
{
    let a = put_decimal(out, at, k.at as u64);
    let b = put_byte(out, a, between);
    let c = put_hex(out, b, label);
    let d = put_byte(out, c, between);
    let e = put_decimal(out, d, k.value as u64);
    let f = put_byte(out, e, between);
    let g = put_decimal(out, f, k.len as u64);
    let h = put_byte(out, g, between);
    put_decimal(out, h, passed as u64)
}
