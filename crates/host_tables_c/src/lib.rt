// What a host links of host_tables: its calls, with the same clauses (library/exports).
#![tactic(auto)]

ghost use Rattle.std.specs.Prelude.{◌≡◌, length};
ghost use Rattle.primer.specs.Primer.{entry_of};
ghost use Rattle.primer_table.specs.Table.{table_of, held_for};
ghost use Rattle.header.specs.Header.{header_of};
ghost use Rattle.arri_block.specs.Block.{block_of};
ghost use Rattle.st436.specs.Lines.{line_step};
ghost use Rattle.st436.specs.Payload.{payload_said, payload_into};
ghost use Rattle.canon_sequence.specs.Sequence.{sequence_of};
ghost use Rattle.canon_sets.specs.Package.{values_from};
ghost use Rattle.canon_sets.specs.Told.{first_of};
ghost use Rattle.host_tables.specs.Places.{header_places, start_places, block_places, payload_places, line_places, package_places};
ghost use Rattle.host_tables.specs.Sequence.{sequence_places, position_places};

// The header part of a file whose first bytes are s.
#[unsafe(no_mangle)]
pub extern "C" fn brine_header(s: &[u8], out: &mut [u64; 3]) -> u32
    ensures value { result ≡ 0 }
    ensures out_after { out.new ≡ header_places (header_of s.now) }
{
    host_tables::brine_header(s, out)
}

// The label of a local tag in a primer pack's value.
#[unsafe(no_mangle)]
pub extern "C" fn brine_primer(s: &[u8], tag: u64, out: &mut [u64; 2]) -> u32
    ensures value { result ≡ 0 }
    ensures out_after { out.new ≡ start_places (entry_of s.now tag) }
{
    host_tables::brine_primer(s, tag, out)
}

// A table over a primer pack's value.
#[unsafe(no_mangle)]
pub extern "C" fn brine_primer_table(s: &[u8], table: &mut [u64; 65536]) -> u32
    ensures value { result ≡ 0 }
    ensures table_after { table.new ≡ table_of s.now table.old }
{
    host_tables::brine_primer_table(s, table)
}

// The label of a local tag in a primer pack's value, by a table over it.
#[unsafe(no_mangle)]
pub extern "C" fn brine_primer_in(
    s: &[u8],
    table: &[u64; 65536],
    tag: u64,
    out: &mut [u64; 2],
) -> u32
    ensures value { result ≡ 0 }
    ensures out_after { out.new ≡ start_places (held_for s.now table.now tag) }
{
    host_tables::brine_primer_in(s, table, tag, out)
}

// ARRI's 256 bytes in an element.
#[unsafe(no_mangle)]
pub extern "C" fn brine_arri_block(element: &[u8], out: &mut [u64; 2]) -> u32
    ensures value { result ≡ 0 }
    ensures out_after { out.new ≡ block_places (block_of element.now) }
{
    host_tables::brine_arri_block(element, out)
}

// The payload of an ST 436 element, where the room is enough.
#[unsafe(no_mangle)]
pub extern "C" fn brine_payload(element: &[u8], payload: &mut [u8], out: &mut [u64; 1]) -> u32
    ensures value { result ≡ (payload_said element.now (length payload.old)).0 }
    ensures out_after { out.new ≡ payload_places (payload_said element.now (length payload.old)) }
    ensures payload_after { payload.new ≡ payload_into element.now payload.old }
{
    host_tables::brine_payload(element, payload, out)
}

// A line of an ST 436 element.
#[unsafe(no_mangle)]
pub extern "C" fn brine_line(element: &[u8], at: usize, left: usize, out: &mut [u64; 5]) -> u32
    ensures value { result ≡ 0 }
    ensures out_after { out.new ≡ line_places left (line_step element.now left at) out.old }
{
    host_tables::brine_line(element, at, left, out)
}

// The next Private Camera Metadata of a package set.
#[unsafe(no_mangle)]
pub extern "C" fn brine_package(s: &[u8], from: usize, end: usize, out: &mut [u64; 6]) -> u32
    ensures value { result ≡ 0 }
    ensures out_after { out.new ≡ package_places end (first_of from (values_from s.now from end)) out.old }
{
    host_tables::brine_package(s, from, end, out)
}

// A sequence info.
#[unsafe(no_mangle)]
pub extern "C" fn brine_sequence(s: &[u8], out: &mut [u64; 8], positions: &mut [i64; 2]) -> u32
    ensures value { result ≡ 0 }
    ensures out_after { out.new ≡ sequence_places (sequence_of s.now) }
    ensures positions_after { positions.new ≡ position_places (sequence_of s.now) }
{
    host_tables::brine_sequence(s, out, positions)
}
