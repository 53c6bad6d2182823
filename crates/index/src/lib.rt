// An index beside the file: docs/RULES.md, "L10. An index beside the file". A record takes 16 bytes, most significant bit first:
// 48 bits start, 4 bits size of the length field, 12 bits group, 64 bits length.
#![tactic(auto)]

ghost use Rattle.std.specs.Prelude.{◌≡◌, ◌+◌, ◌*◌, ◌/◌, ◌≤◌, ◌<◌, ◌^◌, true, false, length, ltb, leb};
ghost use Rattle.parts.specs.Number.{number_at};
ghost use Rattle.index.specs.Places.{start_place, rest_place, slot_of, slot_entry, put_slot, nth, most_of, entries};
ghost use Rattle.index.specs.Lists.{end_of, good_fields, one, of_three, of_few, starts_by, count_in, look_in, early_in, add_to};
ghost use Rattle.index.specs.Index.{written, find_of, add_of, after_add, find_from, add_from, after_from};

#[derive(Clone, Copy, Debug, PartialEq, Eq)]
pub struct Entry {
    pub start: u64,
    pub size: u64,
    pub group: u64,
    pub len: u64,
}

// How an index is laid out.
#[derive(Clone, Copy, Debug, PartialEq, Eq)]
pub enum Layout {
    // 16 bytes a record.
    Rows,
    // All starts, 6 bytes each, and behind them the rest, 10 bytes each.
    Columns,
}

// Where the start of a slot's record stands, and where the rest of it.
fn start_place(l: Layout, s: usize) -> usize
    requires { s * 16 < 2 ^ 63 }
    ensures { result ≡ start_place l s }
{
    match l {
        Layout::Rows => s * 16,
        Layout::Columns => s * 6,
    }
}

fn rest_place(l: Layout, room: usize, s: usize) -> usize
    requires { (s < room) × (room * 16 < 2 ^ 63) }
    ensures { result ≡ rest_place l room s }
{
    match l {
        Layout::Rows => s * 16 + 6,
        Layout::Columns => room * 6 + s * 10,
    }
}

// The slot of a record: from the first slot up, or from the last one down.
fn slot(down: bool, room: usize, k: usize) -> usize
    requires { k < room }
    ensures { (result ≡ slot_of down room k) × (result < room) }
{
    if down { room - 1 - k } else { k }
}

// The number that the eight bytes at a place hold. Of a loop of eight turns the compiler makes one load.
fn eight_at(b: &[u8], at: usize) -> u64
    requires { at + 8 ≤ length b.now }
    ensures { result ≡ number_at b.now at 8 }
{
    let mut v: u64 = 0;
    for i in 0..8 {
        v = v * 256 + u64::from(b[at + i]);
    }
    v
}

// The record of a slot.
fn slot_entry(l: Layout, room: usize, b: &[u8], s: usize) -> Entry
    requires { (s < room) × (room * 16 ≤ length b.now) }
    ensures { (result ≡ slot_entry l room b.now s) × (result.start < 2 ^ 48) × (result.size < 16) }
{
    let at = start_place(l, s);
    let rest = rest_place(l, room, s);
    let start = eight_at(b, at) / 0x1_0000;
    let both = eight_at(b, rest) / 0x1_0000_0000_0000;
    let next = rest + 2;
    let len = eight_at(b, next);
    Entry {
        start: start,
        size: both / 4096,
        group: both % 4096,
        len: len,
    }
}

// Writes the record of a slot.
fn put_slot(l: Layout, room: usize, b: &mut [u8], s: usize, e: Entry)
    requires { (s < room) × (room * 16 ≤ length b.old) × (e.size ≤ 9) × (e.group ≤ 4095) }
    ensures { b.new ≡ put_slot l room b.old s e }
{
    let at = start_place(l, s);
    let rest = rest_place(l, room, s);
    let both = e.size * 4096 + e.group;
    let next = rest + 2;
    written_numbers::put_number(b, at, 6, e.start);
    written_numbers::put_number(b, rest, 2, both);
    written_numbers::put_number(b, next, 8, e.len);
}

// Whether a place lies before a record's end.
fn before_end(e: Entry, pos: u64) -> bool
    requires { (e.start < 2 ^ 48) × (e.size < 16) }
    ensures { result ≡ ltb pos (end_of e) }
{
    let v = e.start + 16 + e.size;
    if pos < v {
        return true;
    }
    pos - v < e.len
}

// Whether the fields of a record are in range.
fn good(e: Entry) -> bool
    ensures { result ≡ good_fields e }
{
    if e.size < 1 {
        return false;
    }
    if 9 < e.size {
        return false;
    }
    if e.group < 64 {
        return true;
    }
    e.group == 4095
}

// A record that was found: its number in the list, and itself.
#[derive(Clone, Copy, Debug, PartialEq, Eq)]
pub struct Found {
    pub number: usize,
    pub entry: Entry,
}

// Why an index refuses a call.
#[derive(Clone, Copy, Debug, PartialEq, Eq)]
pub enum IndexError {
    // 1: more records stated than the buffer holds.
    Short,
    // 15: a size outside 1 to 9, or a group neither below 64 nor 4095.
    Field,
    // 16: a start of 2^48 or more.
    Start,
    // 17: a record that begins before the last one's end.
    Order,
    // 18: all room is in use.
    Full,
}

// The greatest eight bytes of a record that starts at or before a position.
fn most_of(pos: u64) -> u64
    ensures { result ≡ most_of pos }
{
    if 0xffff_ffff_ffff < pos {
        return 0xffff_ffff_ffff_ffff;
    }
    pos * 0x1_0000 + 0xffff
}

// Whether the record whose start is at a place starts at or before a position: its first eight bytes tell where six do.
fn starts_at_or_before(b: &[u8], at: usize, pos: u64, most: u64) -> bool
    requires { (at + 8 ≤ length b.now) × (most ≡ most_of pos) }
    ensures { result ≡ leb (number_at b.now at 6) pos }
{
    eight_at(b, at) <= most
}

// The slots of a room that a list of records uses: so many, from the first one up, or from the last one down.
#[derive(Clone, Copy, Debug, PartialEq, Eq)]
pub struct Slots {
    pub layout: Layout,
    pub down: bool,
    pub room: usize,
    pub used: usize,
}

// The records in use, in a buffer that holds their room.
#[derive(Clone, Copy)]
struct Records<'a> {
    slots: Slots,
    bytes: &'a [u8],
    ghost in_room: { slots.used ≤ slots.room },
    ghost in_bytes: { slots.room * 16 ≤ length bytes.now },
}

impl<'a> Records<'a> {
    // The record k.
    fn entry(self, k: usize) -> Entry
        requires { k < self.slots.used }
        ensures { let r = self.entry in (result ≡ nth r.slots.layout r.slots.down r.slots.room r.bytes.now k) × (result.start < 2 ^ 48) × (result.size < 16) }
    {
        let at = self.slots;
        slot_entry(at.layout, at.room, self.bytes, slot(at.down, at.room, k))
    }

    // The record that covers a position.
    fn look(self, pos: u64) -> Option<Found>
        ensures { let r = self.entry in result ≡ look_in (entries r.slots.layout r.slots.down r.slots.room r.bytes.now r.slots.used) pos }
    {
        let asked = Asked {
            records: self,
            pos,
            most: most_of(pos),
        };
        let n = asked.count();
        if n == 0 {
            return None;
        }
        let number = n - 1;
        let entry = self.entry(number);
        if before_end(entry, pos) {
            Some(Found { number, entry })
        } else {
            None
        }
    }

    // Whether a record begins before the end of the last one.
    fn early(self, start: u64) -> bool
        ensures { let r = self.entry in result ≡ early_in (entries r.slots.layout r.slots.down r.slots.room r.bytes.now r.slots.used) start }
    {
        if self.slots.used == 0 {
            return false;
        }
        before_end(self.entry(self.slots.used - 1), start)
    }
}

// Records that are asked for a position, and the greatest eight bytes of one that starts at or before it.
#[derive(Clone, Copy)]
struct Asked<'a> {
    records: Records<'a>,
    pos: u64,
    most: u64,
    ghost greatest: { most ≡ most_of pos },
}

impl<'a> Asked<'a> {
    // 1 where the record k starts at or before the position, else 0: no branch goes by the record's bytes.
    fn starts_by(self, k: usize) -> usize
        requires { k < self.records.slots.used }
        ensures { let r = self.entry.records in (result ≡ one (starts_by (entries r.slots.layout r.slots.down r.slots.room r.bytes.now r.slots.used) self.entry.pos k)) × (result ≤ 1) }
    {
        let slots = self.records.slots;
        let at = start_place(slots.layout, slot(slots.down, slots.room, k));
        usize::from(starts_at_or_before(self.records.bytes, at, self.pos, self.most))
    }

    // How many of three records, so many apart, do.
    fn of_three(self, at: usize, apart: usize) -> usize
        requires { at + 3 * apart < self.records.slots.used }
        ensures { let r = self.entry.records in (result ≡ of_three (starts_by (entries r.slots.layout r.slots.down r.slots.room r.bytes.now r.slots.used) self.entry.pos) at apart) × (result ≤ 3) }
    {
        self.starts_by(at + apart) + self.starts_by(at + 2 * apart) + self.starts_by(at + 3 * apart)
    }

    // How many of the n records from a place on do.
    fn of_few(self, at: usize, n: usize) -> usize
        requires { at + n ≤ self.records.slots.used }
        ensures { let r = self.entry.records in (result ≡ of_few (starts_by (entries r.slots.layout r.slots.down r.slots.room r.bytes.now r.slots.used) self.entry.pos) at n) × (result ≤ n) }
    {
        let mut k = 0;
        for i in 0..n {
            k += self.starts_by(at + i);
        }
        k
    }

    // How many of the records do: by quarters, which reads starts only.
    fn count(self) -> usize
        ensures { let r = self.entry.records in (result ≡ count_in (entries r.slots.layout r.slots.down r.slots.room r.bytes.now r.slots.used) self.entry.pos) × (result ≤ r.slots.used) }
    {
        let mut at = 0;
        let mut n = self.records.slots.used;
        while 4 <= n {
            let apart = n / 4;
            at += self.of_three(at, apart) * apart;
            n -= 3 * apart;
        }
        at + self.of_few(at, n)
    }
}

// The slots of an index of so many records: its room is all that the buffer holds.
fn upwards(l: Layout, b: &[u8], used: usize) -> Slots
    ensures { result ≡ record { layout = l; down = false; room = length b.now / 16; used = used } }
{
    Slots {
        layout: l,
        down: false,
        room: b.len() / 16,
        used,
    }
}

// The first listed record that covers a position, of so many records in a lent buffer.
pub fn find(l: Layout, b: &[u8], used: usize, pos: u64) -> Result<Option<Found>, IndexError>
    ensures { result ≡ find_of l b.now used pos }
{
    find_from(upwards(l, b, used), b, pos)
}

// Adds a record behind those in use, where room is free.
fn insert(slots: Slots, free: bool, b: &mut [u8], e: Entry) -> Result<usize, IndexError>
    requires { (slots.used ≤ slots.room) × (slots.room * 16 ≤ length b.old) × (free ≡ true → slots.used < slots.room) }
    ensures { (result ≡ add_to free (entries slots.layout slots.down slots.room b.old slots.used) e) × (b.new ≡ written result slots.layout slots.down slots.room b.old slots.used e) }
{
    if !good(e) {
        return Err(IndexError::Field);
    }
    if 0xffff_ffff_ffff < e.start {
        return Err(IndexError::Start);
    }
    let records = Records { slots, bytes: b };
    if records.early(e.start) {
        return Err(IndexError::Order);
    }
    if !free {
        return Err(IndexError::Full);
    }
    let s = slot(slots.down, slots.room, slots.used);
    put_slot(slots.layout, slots.room, b, s, e);
    Ok(slots.used + 1)
}

// Adds a record behind the last of so many in a lent buffer.
pub fn add(l: Layout, b: &mut [u8], used: usize, e: Entry) -> Result<usize, IndexError>
    ensures { (result ≡ add_of l b.old used e) × (b.new ≡ after_add l b.old used e) }
{
    add_from(upwards(l, b, used), true, b, e)
}

// The first record that covers a position, of those in the slots of a room.
pub fn find_from(slots: Slots, b: &[u8], pos: u64) -> Result<Option<Found>, IndexError>
    ensures { result ≡ find_from slots.layout slots.down slots.room b.now slots.used pos }
{
    if b.len() / 16 < slots.room {
        return Err(IndexError::Short);
    }
    if slots.room < slots.used {
        return Err(IndexError::Short);
    }
    Ok(Records { slots, bytes: b }.look(pos))
}

// Adds a record behind the last of these, where one is free and may be given out.
pub fn add_from(slots: Slots, free: bool, b: &mut [u8], e: Entry) -> Result<usize, IndexError>
    ensures { (result ≡ add_from slots.layout slots.down free slots.room b.old slots.used e) × (b.new ≡ after_from slots.layout slots.down free slots.room b.old slots.used e) }
{
    if b.len() / 16 < slots.room {
        return Err(IndexError::Short);
    }
    if slots.room < slots.used {
        return Err(IndexError::Short);
    }
    insert(slots, free & (slots.used < slots.room), b, e)
}
