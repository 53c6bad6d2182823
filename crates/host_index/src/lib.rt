// What a host links of the index: numbers and slices in, a status and lent places out (include/brinethimble.h).
#![tactic(auto)]

ghost use Rattle.std.specs.Prelude.{◌≡◌, [], ◌∷◌, length};
ghost use Rattle.tally.specs.Adding.{group_at};
ghost use Rattle.index.specs.Index.{find_of, add_of, after_add};
ghost use Rattle.index.specs.declared.Layout.TheVariants.{Rows, Columns};
ghost use Rattle.index_layouts.specs.Turning.{turn_of, after_turn};
ghost use Rattle.host_entries.specs.Entries.{layout_of, entry_of};
ghost use Rattle.host_index.specs.Places.{add_status, add_places, find_status, find_places, turn_status};

use index_layouts::Longer;

// The group of the record at a place, among the first groups of a tally.
#[unsafe(no_mangle)]
pub extern "C" fn brine_group(s: &[u8], firsts: &[usize; 64], groups: usize, at: usize) -> u64
    ensures { result ≡ group_at s.now firsts.now groups at }
{
    tally::group_at(s, firsts, groups, at)
}

// Adds a record to an index of so many.
#[unsafe(no_mangle)]
pub extern "C" fn brine_index_add(
    index: &mut [u8],
    columns: bool,
    used: usize,
    entry: &[u64; 4],
    out: &mut [u64; 1],
) -> u32
    ensures value { result ≡ add_status (add_of (layout_of columns) index.old used (entry_of entry.now)) }
    ensures out_after { out.new ≡ add_places (add_of (layout_of columns) index.old used (entry_of entry.now)) out.old }
    ensures index_after { index.new ≡ after_add (layout_of columns) index.old used (entry_of entry.now) }
{
    let l = host_entries::layout_of(columns);
    let e = host_entries::entry_of(entry);
    match index::add(l, index, used, e) {
        Ok(n) => {
            *out = [n as u64];
            0
        }
        Err(r) => host_entries::refusal_of(r),
    }
}

// The first record of an index of so many that covers a byte position.
#[unsafe(no_mangle)]
pub extern "C" fn brine_index_find(
    index: &[u8],
    columns: bool,
    used: usize,
    position: u64,
    out: &mut [u64; 6],
) -> u32
    ensures value { result ≡ find_status (find_of (layout_of columns) index.now used position) }
    ensures out_after { out.new ≡ find_places (find_of (layout_of columns) index.now used position) out.old }
{
    let l = host_entries::layout_of(columns);
    match index::find(l, index, used, position) {
        Ok(found) => {
            *out = host_entries::look_places(found);
            0
        }
        Err(r) => host_entries::refusal_of(r),
    }
}

// The status of turning an index.
fn turn_status(t: Result<(), Longer>) -> u32
    ensures { result ≡ turn_status t }
{
    match t {
        Ok(()) => 0,
        Err(_) => 3,
    }
}

// Rows turned into columns, in a room of their own.
#[unsafe(no_mangle)]
pub extern "C" fn brine_index_columns(rows: &[u8], room: &mut [u8], out: &mut [u64; 1]) -> u32
    ensures value { result ≡ turn_status (turn_of rows.now room.old) }
    ensures out_after { out.new ≡ length rows.now ∷ [] }
    ensures room_after { room.new ≡ after_turn Columns rows.now room.old }
{
    *out = [rows.len() as u64];
    turn_status(index_layouts::to_columns(rows, room))
}

// Columns turned into rows.
#[unsafe(no_mangle)]
pub extern "C" fn brine_index_rows(columns: &[u8], room: &mut [u8], out: &mut [u64; 1]) -> u32
    ensures value { result ≡ turn_status (turn_of columns.now room.old) }
    ensures out_after { out.new ≡ length columns.now ∷ [] }
    ensures room_after { room.new ≡ after_turn Rows columns.now room.old }
{
    *out = [columns.len() as u64];
    turn_status(index_layouts::to_rows(columns, room))
}
