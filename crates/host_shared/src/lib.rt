// What a host links of two files in one index room: numbers and slices in, a status and lent places out (include/brinethimble.h).
#![tactic(auto)]

ghost use Rattle.std.specs.Prelude.{◌≡◌, ◌/◌, length};
ghost use Rattle.host_entries.specs.Entries.{layout_of, entry_of};
ghost use Rattle.shared_index.specs.Rooms.{set_up_of, opened_of, closed_of};
ghost use Rattle.shared_index.specs.Shared.{find_of, add_of, after_add};
ghost use Rattle.host_shared.specs.Places.{room_of, places_of, refusal_of, status_of, room_places, find_places};

use host_numbers::mark;
use shared_index::{File, Room, SharedError};

// The room that seven places are.
fn room_of(places: &[u64; 7]) -> Room
    ensures { result ≡ room_of places.now }
{
    let [whole, share_a, share_b, used_a, used_b, open_a, open_b] = *places;
    let first = File {
        share: share_a as usize,
        used: used_a as usize,
        opened: 0 < open_a,
    };
    let second = File {
        share: share_b as usize,
        used: used_b as usize,
        opened: 0 < open_b,
    };
    Room {
        whole: whole as usize,
        first,
        second,
    }
}

// Puts a room's seven places.
fn put_room(r: Room, places: &mut [u64; 7])
    ensures { places.new ≡ places_of r }
{
    let a = r.first;
    let b = r.second;
    *places = [
        r.whole as u64,
        a.share as u64,
        b.share as u64,
        a.used as u64,
        b.used as u64,
        mark(a.opened),
        mark(b.opened),
    ];
}

// The number of a refusal.
fn refusal_of(e: SharedError) -> u32
    ensures { result ≡ refusal_of e }
{
    match e {
        SharedError::Index(e) => host_entries::refusal_of(e),
        SharedError::NoFile => 19,
        SharedError::Shares => 20,
    }
}

// Puts the room that a call answers, and returns the call's status.
fn answer(r: Result<Room, SharedError>, room: &mut [u64; 7]) -> u32
    ensures value { result ≡ status_of r }
    ensures room_after { room.new ≡ room_places r room.old }
{
    match r {
        Ok(n) => {
            put_room(n, room);
            0
        }
        Err(e) => refusal_of(e),
    }
}

// Sets a room up in a buffer, with two shares.
#[unsafe(no_mangle)]
pub extern "C" fn brine_shared_set_up(index: &[u8], a: usize, b: usize, room: &mut [u64; 7]) -> u32
    ensures value { result ≡ status_of (set_up_of (length index.now / 16) a b) }
    ensures room_after { room.new ≡ room_places (set_up_of (length index.now / 16) a b) room.old }
{
    answer(shared_index::set_up(index, a, b), room)
}

// Opens a file.
#[unsafe(no_mangle)]
pub extern "C" fn brine_shared_open(room: &mut [u64; 7], file: u64) -> u32
    ensures value { result ≡ status_of (opened_of (room_of room.old) file) }
    ensures room_after { room.new ≡ room_places (opened_of (room_of room.old) file) room.old }
{
    answer(shared_index::open(room_of(room), file), room)
}

// Closes a file.
#[unsafe(no_mangle)]
pub extern "C" fn brine_shared_close(room: &mut [u64; 7], file: u64) -> u32
    ensures value { result ≡ status_of (closed_of (room_of room.old) file) }
    ensures room_after { room.new ≡ room_places (closed_of (room_of room.old) file) room.old }
{
    answer(shared_index::close(room_of(room), file), room)
}

// Adds a record to a file.
#[unsafe(no_mangle)]
pub extern "C" fn brine_shared_add(
    index: &mut [u8],
    columns: bool,
    room: &mut [u64; 7],
    file: u64,
    entry: &[u64; 4],
) -> u32
    ensures value { result ≡ status_of (add_of (layout_of columns) index.old (room_of room.old) file (entry_of entry.now)) }
    ensures room_after { room.new ≡ room_places (add_of (layout_of columns) index.old (room_of room.old) file (entry_of entry.now)) room.old }
    ensures index_after { index.new ≡ after_add (layout_of columns) index.old (room_of room.old) file (entry_of entry.now) }
{
    let l = host_entries::layout_of(columns);
    let e = host_entries::entry_of(entry);
    let r = room_of(room);
    answer(shared_index::add(l, index, r, file, e), room)
}

// The first record of a file that covers a byte position.
#[unsafe(no_mangle)]
pub extern "C" fn brine_shared_find(
    index: &[u8],
    columns: bool,
    room: &[u64; 7],
    file: u64,
    position: u64,
    out: &mut [u64; 6],
) -> u32
    ensures value { result ≡ status_of (find_of (layout_of columns) index.now (room_of room.now) file position) }
    ensures out_after { out.new ≡ find_places (find_of (layout_of columns) index.now (room_of room.now) file position) out.old }
{
    let l = host_entries::layout_of(columns);
    let r = room_of(room);
    match shared_index::find(l, index, r, file, position) {
        Ok(found) => {
            *out = host_entries::look_places(found);
            0
        }
        Err(e) => refusal_of(e),
    }
}
