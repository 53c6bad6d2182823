// What a host links of host_written: its calls, with the same clauses (library/exports).
#![tactic(auto)]

ghost use Rattle.std.specs.Prelude.{◌≡◌, true, length};
ghost use Rattle.written_lengths.specs.Form.{shortest_size, form_of, holds};
ghost use Rattle.written_klvs.specs.Klvs.{klv_bytes, rewritten};
ghost use Rattle.written_tables.specs.Items.{good_item, local_bytes};
ghost use Rattle.written_tables.specs.Primer.{good_primer, primer_bytes};
ghost use Rattle.written_packs.specs.Packs.{good_pack, pack_bytes};
ghost use Rattle.host_written.specs.Places.{HostWrote};

// How many bytes the shortest form of a length takes.
#[unsafe(no_mangle)]
pub extern "C" fn brine_shortest(n: u64) -> usize
    ensures { result ≡ shortest_size n }
{
    host_written::brine_shortest(n)
}

// A length of so many bytes, at a place of `room`.
#[unsafe(no_mangle)]
pub extern "C" fn brine_put_length(
    n: u64,
    size: usize,
    room: &mut [u8],
    at: usize,
    out: &mut [u64; 1],
) -> u32
    ensures { HostWrote (holds size n) (form_of size n) at room.old out.old result room.new out.new }
{
    host_written::brine_put_length(n, size, room, at, out)
}

// A KLV with a length of so many bytes, at a place of `room`.
#[unsafe(no_mangle)]
pub extern "C" fn brine_put_klv(
    label: &[u8; 16],
    size: usize,
    value: &[u8],
    room: &mut [u8],
    at: usize,
    out: &mut [u64; 1],
) -> u32
    ensures { HostWrote (holds size (length value.now)) (klv_bytes label.now size value.now) at room.old out.old result room.new out.new }
{
    host_written::brine_put_klv(label, size, value, room, at, out)
}

// A run of KLVs, each length in its shortest form, at the start of `room`.
#[unsafe(no_mangle)]
pub extern "C" fn brine_rewrite(s: &[u8], room: &mut [u8], out: &mut [u64; 1]) -> u32
    ensures { HostWrote true (rewritten s.now) 0 room.old out.old result room.new out.new }
{
    host_written::brine_rewrite(s, room, out)
}

// An item of a local set, tag and length of two bytes, at a place of `room`.
#[unsafe(no_mangle)]
pub extern "C" fn brine_put_item(
    tag: u64,
    value: &[u8],
    room: &mut [u8],
    at: usize,
    out: &mut [u64; 1],
) -> u32
    ensures { HostWrote (good_item tag (length value.now)) (local_bytes tag value.now) at room.old out.old result room.new out.new }
{
    host_written::brine_put_item(tag, value, room, at, out)
}

// A primer's value, a label of 16 bytes for each tag, at a place of `room`.
#[unsafe(no_mangle)]
pub extern "C" fn brine_put_primer(
    tags: &[u64],
    labels: &[u8],
    room: &mut [u8],
    at: usize,
    out: &mut [u64; 1],
) -> u32
    ensures { HostWrote (good_primer tags.now labels.now) (primer_bytes tags.now labels.now) at room.old out.old result room.new out.new }
{
    host_written::brine_put_primer(tags, labels, room, at, out)
}

// A pack of Canon's by its raw fields, at a place of `room`.
#[unsafe(no_mangle)]
pub extern "C" fn brine_put_pack(
    id: u64,
    fields: &[u64],
    room: &mut [u8],
    at: usize,
    out: &mut [u64; 1],
) -> u32
    ensures { HostWrote (good_pack id fields.now) (pack_bytes id fields.now) at room.old out.old result room.new out.new }
{
    host_written::brine_put_pack(id, fields, room, at, out)
}
