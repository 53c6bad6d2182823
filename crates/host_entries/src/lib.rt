// A record of an index, its layout, and what an index answers, as a host has them (include/brinethimble.h).
#![tactic(auto)]

ghost use Rattle.std.specs.Prelude.{◌≡◌};
ghost use Rattle.host_entries.specs.Entries.{layout_of, entry_of, refusal_of, look_places};

use index::{Entry, Found, IndexError, Layout};

// The layout that a flag says.
pub fn layout_of(columns: bool) -> Layout
    ensures { result ≡ layout_of columns }
{
    if columns {
        Layout::Columns
    } else {
        Layout::Rows
    }
}

// The record that four places are.
pub fn entry_of(entry: &[u64; 4]) -> Entry
    ensures { result ≡ entry_of entry.now }
{
    let [start, size, group, len] = *entry;
    Entry {
        start,
        size,
        group,
        len,
    }
}

// The number of a refusal.
pub fn refusal_of(e: IndexError) -> u32
    ensures { result ≡ refusal_of e }
{
    match e {
        IndexError::Short => 1,
        IndexError::Field => 15,
        IndexError::Start => 16,
        IndexError::Order => 17,
        IndexError::Full => 18,
    }
}

// The six places of a look-up: those of the record that was found, or 0.
pub fn look_places(found: Option<Found>) -> [u64; 6]
    ensures { result ≡ look_places found }
{
    let Some(f) = found else {
        return [0; 6];
    };
    let e = f.entry;
    [1, f.number as u64, e.start, e.size, e.group, e.len]
}
