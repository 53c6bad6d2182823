// Rows into columns and back, into a second lent buffer: docs/RULES.md, "L12. Columns instead of rows".
#![tactic(auto)]

ghost use Rattle.std.specs.Prelude.{◌≡◌, ◌*◌, ◌<◌, ◌^◌};
ghost use Rattle.index.specs.declared.Layout.TheVariants.{Rows, Columns};
ghost use Rattle.index_layouts.specs.Turning.{in_columns, in_rows, came_from, turn_of, after_turn};

use index::Layout;

// 3: the output is shorter; so many bytes are needed.
#[derive(Clone, Copy, Debug, PartialEq, Eq)]
pub struct Longer {
    pub needed: usize,
}

// Where a byte of rows stands in columns, and a byte of columns in rows.
fn in_columns(room: usize, i: usize) -> usize
    requires { (room * 16 < 2 ^ 63) × (i < 2 ^ 63) }
    ensures { result ≡ in_columns room i }
{
    let record = i / 16;
    let byte = i % 16;
    if room * 16 <= i {
        return i;
    }
    if byte < 6 {
        return record * 6 + byte;
    }
    room * 6 + record * 10 + (byte - 6)
}

fn in_rows(room: usize, i: usize) -> usize
    requires { (room * 16 < 2 ^ 63) × (i < 2 ^ 63) }
    ensures { result ≡ in_rows room i }
{
    if i < room * 6 {
        return i / 6 * 16 + i % 6;
    }
    if room * 16 <= i {
        return i;
    }
    let k = i - room * 6;
    k / 10 * 16 + 6 + k % 10
}

fn came_from(to: Layout, room: usize, i: usize) -> usize
    requires { (room * 16 < 2 ^ 63) × (i < 2 ^ 63) }
    ensures { result ≡ came_from to room i }
{
    match to {
        Layout::Rows => in_columns(room, i),
        Layout::Columns => in_rows(room, i),
    }
}

fn turn(to: Layout, s: &[u8], out: &mut [u8]) -> Result<(), Longer>
    ensures { (result ≡ turn_of s.now out.old) × (out.new ≡ after_turn to s.now out.old) }
{
    let n = s.len();
    if out.len() < n {
        return Err(Longer { needed: n });
    }
    for i in 0..n {
        out[i] = s[came_from(to, n / 16, i)];
    }
    Ok(())
}

// The bytes of an index in rows, as columns.
pub fn to_columns(rows: &[u8], out: &mut [u8]) -> Result<(), Longer>
    ensures { (result ≡ turn_of rows.now out.old) × (out.new ≡ after_turn Columns rows.now out.old) }
{
    turn(Layout::Columns, rows, out)
}

// The bytes of an index in columns, as rows.
pub fn to_rows(columns: &[u8], out: &mut [u8]) -> Result<(), Longer>
    ensures { (result ≡ turn_of columns.now out.old) × (out.new ≡ after_turn Rows columns.now out.old) }
{
    turn(Layout::Rows, columns, out)
}
