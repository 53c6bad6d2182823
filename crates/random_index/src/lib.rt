// The random index pack: docs/RULES.md, "L6. The random index pack". It ends a file, and its last four bytes say how long it is,
// from its key on. Ahead of them stand pairs of a body stream's number and an offset in the file.
#![tactic(auto)]

ghost use Rattle.std.specs.Prelude.{◌≡◌, ◌+◌, ◌≤◌, length};
ghost use Rattle.random_index.specs.Index.{pairs_behind, index_of, is_partition, pair_step};
ghost use Rattle.random_index.specs.Told.{told, step_told};

use labels::RANDOM_INDEX;

// Where the pairs are read, and how many are left.
#[derive(Clone, Copy, Debug, PartialEq, Eq)]
pub struct Pairs {
    pub at: usize,
    pub left: usize,
}

// Why a file ends with no random index pack.
#[derive(Clone, Copy, Debug, PartialEq, Eq)]
pub enum PackError {
    // 7: the file or the size is below 21 bytes, or the size is above the file's.
    Size,
    // 8: another label than the pack's.
    Label,
    // 9: a length that is not the pairs' and the size's.
    Length,
}

// The pairs behind the key at a place, where its length is theirs and ends at the end.
fn pairs_behind(s: &[u8], p: usize) -> Result<Pairs, PackError>
    requires { p + 16 ≤ length s.now }
    ensures { told result ≡ pairs_behind s.now p }
{
    let at = p + 16;
    let Ok(f) = lengths::read(s, at) else {
        return Err(PackError::Length);
    };
    let v = at + f.size;
    let n = f.value;
    if n % 12 != 4 {
        return Err(PackError::Length);
    }
    if n != (s.len() - v) as u64 {
        return Err(PackError::Length);
    }
    let left = (n / 12) as usize;
    Ok(Pairs { at: v, left })
}

// The pairs of a file's random index pack, found from the file's last four bytes: the cursor at the first one.
pub fn find(s: &[u8]) -> Result<Pairs, PackError>
    ensures { told result ≡ index_of s.now }
{
    if s.len() < 21 {
        return Err(PackError::Size);
    }
    let size = parts::number_at(s, s.len() - 4, 4) as usize;
    if size < 21 {
        return Err(PackError::Size);
    }
    if s.len() < size {
        return Err(PackError::Size);
    }
    let p = s.len() - size;
    if !labels::same_label(labels::label(s, p), &RANDOM_INDEX) {
        return Err(PackError::Label);
    }
    pairs_behind(s, p)
}

// Whether a partition pack's label stands at a place, which may lie anywhere.
fn is_partition(s: &[u8], at: usize) -> bool
    ensures { result ≡ is_partition s.now at }
{
    let kind = labels::partition_kind(s, at);
    (2 <= kind) & (kind <= 4)
}

// A pair: a body stream's number, an offset in the file, and whether a partition pack's label stands there.
#[derive(Clone, Copy, Debug, PartialEq, Eq)]
pub struct Pair {
    pub stream: u32,
    pub offset: u64,
    pub partition: bool,
}

impl Pairs {
    // The pair at the cursor, with the cursor past it; None at the end. A cursor that `find` did not give reads what is there.
    pub fn step(self, s: &[u8]) -> Option<(Pair, Pairs)>
        ensures { step_told self.at result ≡ pair_step s.now self.left self.at }
    {
        if self.left == 0 {
            return None;
        }
        if s.len() < 12 {
            return None;
        }
        let at = self.at;
        if s.len() - 12 < at {
            return None;
        }
        let stream = parts::four_at(s, at);
        let offset = parts::number_at(s, at + 4, 8);
        let partition = is_partition(s, offset as usize);
        let pair = Pair {
            stream,
            offset,
            partition,
        };
        let next = Pairs {
            at: at + 12,
            left: self.left - 1,
        };
        Some((pair, next))
    }
}
