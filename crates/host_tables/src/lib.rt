// What a host links of the tables inside values: numbers and slices in, a status and lent places out
// (include/brinethimble.h).
#![tactic(auto)]

ghost use Rattle.std.specs.Prelude.{◌≡◌, length};
ghost use Rattle.primer.specs.Primer.{entry_of};
ghost use Rattle.primer_table.specs.Table.{table_of, held_for};
ghost use Rattle.header.specs.Header.{header_of};
ghost use Rattle.arri_block.specs.Block.{block_of};
ghost use Rattle.st436.specs.Lines.{line_step};
ghost use Rattle.st436.specs.Payload.{payload_said, payload_into};
ghost use Rattle.canon_sequence.specs.Sequence.{sequence_of};
ghost use Rattle.canon_sets.specs.Package.{values_from};
ghost use Rattle.canon_sets.specs.Told.{first_of};
ghost use Rattle.host_tables.specs.Places.{header_places, start_places, block_places, payload_places, line_places, package_places};
ghost use Rattle.host_tables.specs.Sequence.{identifier_places, position_found, position_figure, sequence_places, position_places};

use canon_sets::Package;
use klv::Klv;
use st436::Lines;

// The header part of a file whose first bytes are s.
#[unsafe(no_mangle)]
pub extern "C" fn brine_header(s: &[u8], out: &mut [u64; 3]) -> u32
    ensures value { result ≡ 0 }
    ensures out_after { out.new ≡ header_places (header_of s.now) }
{
    let h = header::find(s);
    match h {
        Some(p) => *out = [1, p.at as u64, p.len as u64],
        None => *out = [0, 0, 0],
    }
    0
}

// The label of a local tag in a primer pack's value.
#[unsafe(no_mangle)]
pub extern "C" fn brine_primer(s: &[u8], tag: u64, out: &mut [u64; 2]) -> u32
    ensures value { result ≡ 0 }
    ensures out_after { out.new ≡ start_places (entry_of s.now tag) }
{
    *out = match primer::find(s, tag) {
        Some(at) => [1, at as u64],
        None => [0, 0],
    };
    0
}

// A table over a primer pack's value.
#[unsafe(no_mangle)]
pub extern "C" fn brine_primer_table(s: &[u8], table: &mut [u64; 65536]) -> u32
    ensures value { result ≡ 0 }
    ensures table_after { table.new ≡ table_of s.now table.old }
{
    primer_table::fill(s, table);
    0
}

// The label of a local tag in a primer pack's value, by a table over it.
#[unsafe(no_mangle)]
pub extern "C" fn brine_primer_in(
    s: &[u8],
    table: &[u64; 65536],
    tag: u64,
    out: &mut [u64; 2],
) -> u32
    ensures value { result ≡ 0 }
    ensures out_after { out.new ≡ start_places (held_for s.now table.now tag) }
{
    *out = match primer_table::find(s, table, tag) {
        Some(at) => [1, at as u64],
        None => [0, 0],
    };
    0
}

// ARRI's 256 bytes in an element.
#[unsafe(no_mangle)]
pub extern "C" fn brine_arri_block(element: &[u8], out: &mut [u64; 2]) -> u32
    ensures value { result ≡ 0 }
    ensures out_after { out.new ≡ block_places (block_of element.now) }
{
    match arri_block::find(element) {
        Some(at) => *out = [1, at as u64],
        None => *out = [0, 0],
    }
    0
}

// The payload of an ST 436 element, where the room is enough.
#[unsafe(no_mangle)]
pub extern "C" fn brine_payload(element: &[u8], payload: &mut [u8], out: &mut [u64; 1]) -> u32
    ensures value { result ≡ (payload_said element.now (length payload.old)).0 }
    ensures out_after { out.new ≡ payload_places (payload_said element.now (length payload.old)) }
    ensures payload_after { payload.new ≡ payload_into element.now payload.old }
{
    let p = st436::payload_into(element, payload);
    match p {
        Ok(n) => {
            *out = [n as u64];
            0
        }
        Err(longer) => {
            *out = [longer.needed as u64];
            3
        }
    }
}

// A line of an ST 436 element.
#[unsafe(no_mangle)]
pub extern "C" fn brine_line(element: &[u8], at: usize, left: usize, out: &mut [u64; 5]) -> u32
    ensures value { result ≡ 0 }
    ensures out_after { out.new ≡ line_places left (line_step element.now left at) out.old }
{
    let t = Lines { at, left }.step(element);
    match t {
        Some((line, next)) => *out = [
            1,
            line.at as u64,
            line.len as u64,
            next.at as u64,
            next.left as u64,
        ],
        None => *out = [0, 0, 0, at as u64, left as u64],
    }
    0
}

// The next Private Camera Metadata of a package set.
#[unsafe(no_mangle)]
pub extern "C" fn brine_package(s: &[u8], from: usize, end: usize, out: &mut [u64; 6]) -> u32
    ensures value { result ≡ 0 }
    ensures out_after { out.new ≡ package_places end (first_of from (values_from s.now from end)) out.old }
{
    let t = Package { from, end }.step(s);
    match t {
        Some((k, next)) => *out = [
            1,
            k.at as u64,
            k.value as u64,
            k.len as u64,
            next.from as u64,
            next.end as u64,
        ],
        None => *out = [0, 0, 0, 0, from as u64, end as u64],
    }
    0
}

// Whether an identifier is there, and the place and length of its bytes.
#[tactic(auto, unfolding(crate::specs::Sequence::identifier_places))]
fn identifier_places(i: Option<Klv>) -> [u64; 3]
    ensures { result ≡ identifier_places i }
{
    match i {
        Some(k) => [1, k.value as u64, k.len as u64],
        None => [0, 0, 0],
    }
}

// Whether a position is there.
#[tactic(auto, unfolding(crate::specs::Sequence::position_found))]
fn position_found(p: Option<i64>) -> u64
    ensures { result ≡ position_found p }
{
    u64::from(p.is_some())
}

// A position, 0 for none.
#[tactic(auto, unfolding(crate::specs::Sequence::position_figure))]
fn position_figure(p: Option<i64>) -> i64
    ensures { result ≡ position_figure p }
{
    p.unwrap_or(0)
}

// A sequence info.
#[unsafe(no_mangle)]
pub extern "C" fn brine_sequence(s: &[u8], out: &mut [u64; 8], positions: &mut [i64; 2]) -> u32
    ensures value { result ≡ 0 }
    ensures out_after { out.new ≡ sequence_places (sequence_of s.now) }
    ensures positions_after { positions.new ≡ position_places (sequence_of s.now) }
{
    let q = canon_sequence::read(s);
    let instance = identifier_places(q.instance_uid);
    let package = identifier_places(q.package_uid);
    let timecode_found = position_found(q.start_timecode);
    let position_found = position_found(q.start_position);
    *out = [
        instance[0],
        instance[1],
        instance[2],
        package[0],
        package[1],
        package[2],
        timecode_found,
        position_found,
    ];
    let timecode = position_figure(q.start_timecode);
    let position = position_figure(q.start_position);
    *positions = [timecode, position];
    0
}
