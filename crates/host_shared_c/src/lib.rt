// What a host links of host_shared: its calls, with the same clauses (library/exports).
#![tactic(auto)]

ghost use Rattle.std.specs.Prelude.{◌≡◌, ◌/◌, length};
ghost use Rattle.host_entries.specs.Entries.{layout_of, entry_of};
ghost use Rattle.shared_index.specs.Rooms.{set_up_of, opened_of, closed_of};
ghost use Rattle.shared_index.specs.Shared.{find_of, add_of, after_add};
ghost use Rattle.host_shared.specs.Places.{room_of, status_of, room_places, find_places};

// Sets a room up in a buffer, with two shares.
#[unsafe(no_mangle)]
pub extern "C" fn brine_shared_set_up(index: &[u8], a: usize, b: usize, room: &mut [u64; 7]) -> u32
    ensures value { result ≡ status_of (set_up_of (length index.now / 16) a b) }
    ensures room_after { room.new ≡ room_places (set_up_of (length index.now / 16) a b) room.old }
{
    host_shared::brine_shared_set_up(index, a, b, room)
}

// Opens a file.
#[unsafe(no_mangle)]
pub extern "C" fn brine_shared_open(room: &mut [u64; 7], file: u64) -> u32
    ensures value { result ≡ status_of (opened_of (room_of room.old) file) }
    ensures room_after { room.new ≡ room_places (opened_of (room_of room.old) file) room.old }
{
    host_shared::brine_shared_open(room, file)
}

// Closes a file.
#[unsafe(no_mangle)]
pub extern "C" fn brine_shared_close(room: &mut [u64; 7], file: u64) -> u32
    ensures value { result ≡ status_of (closed_of (room_of room.old) file) }
    ensures room_after { room.new ≡ room_places (closed_of (room_of room.old) file) room.old }
{
    host_shared::brine_shared_close(room, file)
}

// Adds a record to a file.
#[unsafe(no_mangle)]
pub extern "C" fn brine_shared_add(
    index: &mut [u8],
    columns: bool,
    room: &mut [u64; 7],
    file: u64,
    entry: &[u64; 4],
) -> u32
    ensures value { result ≡ status_of (add_of (layout_of columns) index.old (room_of room.old) file (entry_of entry.now)) }
    ensures room_after { room.new ≡ room_places (add_of (layout_of columns) index.old (room_of room.old) file (entry_of entry.now)) room.old }
    ensures index_after { index.new ≡ after_add (layout_of columns) index.old (room_of room.old) file (entry_of entry.now) }
{
    host_shared::brine_shared_add(index, columns, room, file, entry)
}

// The first record of a file that covers a byte position.
#[unsafe(no_mangle)]
pub extern "C" fn brine_shared_find(
    index: &[u8],
    columns: bool,
    room: &[u64; 7],
    file: u64,
    position: u64,
    out: &mut [u64; 6],
) -> u32
    ensures value { result ≡ status_of (find_of (layout_of columns) index.now (room_of room.now) file position) }
    ensures out_after { out.new ≡ find_places (find_of (layout_of columns) index.now (room_of room.now) file position) out.old }
{
    host_shared::brine_shared_find(index, columns, room, file, position, out)
}
