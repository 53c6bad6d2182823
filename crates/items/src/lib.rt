// Items one behind the other, each a key or tag, a length and a value, up to the first that isn't whole: docs/RULES.md,
// "The walk" and "Tables inside values". A run has keys of 16 bytes of any kind and BER lengths, and looks for no key start.
// A set's items have tags and lengths of 2 bytes, or BER lengths where its label's byte 5 is 13h. All are one step over a
// coding.
#![tactic(auto)]

ghost use Rattle.std.specs.Prelude.{◌≡◌};
ghost use Rattle.items.specs.Items.{length_in, item_step, run_step, coding_of};
ghost use Rattle.items.specs.Told.{whole_told, told, local_told};

use klv::Klv;
use lengths::{Field, NoLength};

// The length at a place in one of the two codings: BER, or two bytes.
fn length_in(s: &[u8], at: usize, ber: bool) -> Result<Field, NoLength>
    ensures { result ≡ length_in ber s.now at }
{
    if ber {
        return lengths::read(s, at);
    }
    lengths::read_two(s, at)
}

// The item at a place whose key takes that many bytes, where it is whole.
fn item_at(s: &[u8], at: usize, key: usize, ber: bool) -> Option<Klv>
    ensures { whole_told key s.now at result ≡ item_step key ber s.now at }
{
    if s.len() < key {
        return None;
    }
    if s.len() - key < at {
        return None;
    }
    let after = at + key;
    let l = length_in(s, after, ber);
    let Ok(f) = l else {
        return None;
    };
    let value = after + f.size;
    let n = f.value;
    let room = s.len() - value;
    if (room as u64) < n {
        return None;
    }
    Some(Klv {
        at,
        value,
        len: n as usize,
        size: f.size,
        shortest: f.shortest,
    })
}

// Where a run is read.
#[derive(Clone, Copy, Debug, PartialEq, Eq)]
pub struct Run {
    pub at: usize,
}

impl Run {
    // The KLV at the cursor, with the cursor past it; none where no whole one is left.
    pub fn step(self, s: &[u8]) -> Option<(Klv, Run)>
        ensures { told s.now self.at result ≡ run_step s.now self.at }
    {
        let k = item_at(s, self.at, 16, true)?;
        let next = k.value + k.len;
        Some((k, Run { at: next }))
    }
}

// How a set's items are coded: the bytes of a tag, and whether lengths are BER or of two bytes.
#[derive(Clone, Copy, Debug, PartialEq, Eq)]
pub struct Coding {
    pub tag: usize,
    pub ber: bool,
}

impl Coding {
    // Label byte 5 is 53h: tags and lengths of 2 bytes.
    pub const TWO_TWO: Coding = Coding { tag: 2, ber: false };
    // Label byte 5 is 13h: tags of 2 bytes and BER lengths.
    pub const TWO_BER: Coding = Coding { tag: 2, ber: true };
    // Label byte 5 is 43h: tags of 1 byte and lengths of 2.
    pub const ONE_TWO: Coding = Coding { tag: 1, ber: false };

    // The coding of a set with tags of 2 bytes, by its label: lengths are BER where its byte 5 is 13h.
    pub fn of_set(label: &[u8]) -> Self
        ensures { result ≡ coding_of label.now }
    {
        if label.len() < 6 {
            return Coding::TWO_TWO;
        }
        if label[5] == 0x13 {
            return Coding::TWO_BER;
        }
        Coding::TWO_TWO
    }
}

// Where a set's items are read.
#[derive(Clone, Copy, Debug, PartialEq, Eq)]
pub struct Local {
    pub at: usize,
}

impl Local {
    // The item at the cursor, its tag where it starts, with the cursor past it; none where no whole one is left.
    pub fn step(self, s: &[u8], coding: Coding) -> Option<(Klv, Local)>
        ensures { local_told coding.tag s.now self.at result ≡ item_step coding.tag coding.ber s.now self.at }
    {
        let k = item_at(s, self.at, coding.tag, coding.ber)?;
        let next = k.value + k.len;
        Some((k, Local { at: next }))
    }
}
