// Local items with tags and lengths of 2 bytes, of which a set is made, and primers, written: docs/RULES.md, "L8. Writers".
#![tactic(auto)]

ghost use Rattle.std.specs.Prelude.{◌≡◌, ◌*◌, length};
ghost use Rattle.written_lengths.specs.Wrote.{Wrote};
ghost use Rattle.written_tables.specs.Items.{good_item, local_bytes};
ghost use Rattle.written_tables.specs.Primer.{all_tags, good_primer, entries_bytes, primer_bytes};

use text::put_all;
use written_lengths::{WriteError, place_behind};
use written_numbers::put_number;

// Writes an item at a place: its tag, its length, its value.
pub fn put_item(tag: u64, value: &[u8], out: &mut [u8], at: usize) -> Result<usize, WriteError>
    ensures { Wrote (good_item tag (length value.now)) (local_bytes tag value.now) at out.old result out.new }
{
    if 0xffff < tag || 0xffff < value.len() {
        return Err(WriteError::Field);
    }
    let needed = 4 + value.len();
    let next = place_behind(out.len(), at, needed)?;
    put_number(out, at, 2, tag);
    put_number(out, at + 2, 2, value.len() as u64);
    put_all(out, at + 4, value);
    Ok(next)
}

// Whether each tag has two bytes.
fn tags_fit(tags: &[u64]) -> bool
    ensures { result ≡ all_tags tags.now }
{
    tags.iter().all(|tag| *tag <= 0xffff)
}

// Writes a primer's entries in as many bytes as they have.
fn put_entries(tags: &[u64], labels: &[u8], entries: &mut [u8])
    requires { (length labels.now ≡ 16 * length tags.now) × (length entries.old ≡ 18 * length tags.now) }
    ensures { entries.new ≡ entries_bytes tags.now labels.now }
{
    let mut place = 0;
    for (tag, label) in tags.iter().zip(labels.chunks_exact(16)) {
        put_number(entries, place, 2, *tag);
        put_all(entries, place + 2, label);
        place += 18;
    }
}

// Writes a primer's value at a place: a label of 16 bytes for each tag, in their order.
pub fn put_primer(
    tags: &[u64],
    labels: &[u8],
    out: &mut [u8],
    at: usize,
) -> Result<usize, WriteError>
    ensures { Wrote (good_primer tags.now labels.now) (primer_bytes tags.now labels.now) at out.old result out.new }
{
    let n = tags.len();
    if 0xffff_ffff < n || labels.len() != 16 * n || !tags_fit(tags) {
        return Err(WriteError::Field);
    }
    let needed = 8 + 18 * n;
    let next = place_behind(out.len(), at, needed)?;
    put_number(out, at, 4, n as u64);
    put_number(out, at + 4, 4, 18);
    put_entries(tags, labels, &mut out[at + 8..next]);
    Ok(next)
}
