// Canon packs 1 to 20 written from their raw fields: docs/RULES.md, "L8. Writers". They go by the table of fields by which the packs
// are read; bits of no field are 0.
#![tactic(auto)]

ghost use Rattle.std.specs.Prelude.{◌≡◌, true, ◌≤◌};
ghost use Rattle.canon_groups.specs.Fields.{fields_of};
ghost use Rattle.written_lengths.specs.Wrote.{Wrote};
ghost use Rattle.written_packs.specs.Packs.{fitting, sum_of, good_pack, pack_bytes};

use written_lengths::{WriteError, place_behind};
use written_numbers::put_number;

// By id from 0 on, the fields of a pack, the highest first: each one's lowest bit, and how many bits it has. A const that holds
// references is put together on the stack at each use; a static is not.
static FIELDS: [&[(u32, u32)]; 21] = [
    &[],
    &[(16, 16), (0, 16)],
    &[(30, 2), (28, 2), (27, 1)],
    &[(16, 16), (0, 16)],
    &[(30, 2), (8, 16), (0, 8)],
    &[(16, 16), (0, 16)],
    &[(29, 3), (24, 5), (23, 1), (8, 15), (0, 8)],
    &[(31, 1), (24, 7), (16, 8), (12, 4)],
    &[(30, 2), (24, 4), (16, 1)],
    &[(0, 32)],
    &[(16, 16), (0, 16)],
    &[(31, 1), (28, 3), (16, 12), (0, 16)],
    &[(0, 32)],
    &[(0, 32)],
    &[(16, 16)],
    &[(16, 16)],
    &[(0, 32)],
    &[(0, 32)],
    &[(31, 1), (0, 16)],
    &[(0, 32)],
    &[(24, 2)],
];

// The fields of a pack. That an id is at most 20 stands at this function and the two below alone: a type for it would be no plainer.
fn fields_of(id: usize) -> &'static [(u32, u32)]
    requires { id ≤ 20 }
    ensures { result.now ≡ fields_of id }
{
    FIELDS[id]
}

// Whether these are as many numbers as a pack has fields, and each fits.
fn fit(id: usize, fields: &[u64]) -> bool
    requires { id ≤ 20 }
    ensures { result ≡ fitting (fields_of id) fields.now }
{
    let table = fields_of(id);
    if fields.len() != table.len() {
        return false;
    }
    for (x, &(_, width)) in fields.iter().zip(table) {
        if 1 << width <= *x {
            return false;
        }
    }
    true
}

// The pack's number of 32 bits.
fn sum(id: usize, fields: &[u64]) -> u64
    requires { (1 ≤ id) × (id ≤ 20) × (fitting (fields_of id) fields.now ≡ true) }
    ensures { result ≡ sum_of (fields_of id) fields.now }
{
    let mut sum = 0;
    for (x, &(lowest, _)) in fields.iter().zip(fields_of(id)) {
        sum += *x << lowest;
    }
    sum
}

// Writes a pack at a place from its raw fields.
pub fn put_pack(id: u64, fields: &[u64], out: &mut [u8], at: usize) -> Result<usize, WriteError>
    ensures { Wrote (good_pack id fields.now) (pack_bytes id fields.now) at out.old result out.new }
{
    if id < 1 || 20 < id || !fit(id as usize, fields) {
        return Err(WriteError::Field);
    }
    let next = place_behind(out.len(), at, 5)?;
    out[at] = id as u8;
    put_number(out, at + 1, 4, sum(id as usize, fields));
    Ok(next)
}
