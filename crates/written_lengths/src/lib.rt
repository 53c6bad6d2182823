// Lengths written: docs/RULES.md, "L8. Writers". A length in its shortest form, or in a given size of 1 to 9 that holds it; and
// what every writer answers and leaves behind: refusal 15 where what is to be written has no such form, then 3 where the
// lent room is less, and a refusal writes nothing.
#![tactic(auto)]

ghost use Rattle.std.specs.Prelude.{◌≡◌, ◌+◌, ◌-◌, ◌≤◌, ◌<◌, length, MatchResult};
ghost use Rattle.lengths.specs.Length.{bound_of};
ghost use Rattle.written_lengths.specs.Form.{holds, shortest_size, form_of};
ghost use Rattle.written_lengths.specs.Wrote.{Wrote};
ghost use Rattle.written_lengths.specs.declared.WriteError.TheVariants.{Longer};

use written_numbers::put_number;

// Why a writer refuses: nothing is written then. Else it answers the place behind what it wrote.
#[derive(Clone, Copy, Debug, PartialEq, Eq)]
pub enum WriteError {
    // What is to be written has no such form: refusal 15.
    Field,
    // It takes so many bytes, and the room has fewer from that place on: refusal 3.
    Longer(usize),
}

// The place behind so many bytes from a place on, in a room of a length that has them.
pub fn place_behind(room: usize, at: usize, needed: usize) -> Result<usize, WriteError>
    ensures { MatchResult result (λ next. (needed ≤ room - at) × (next ≡ at + needed)) (λ e. (room - at < needed) × (e ≡ Longer needed)) }
{
    if room.saturating_sub(at) < needed {
        return Err(WriteError::Longer(needed));
    }
    Ok(at + needed)
}

// The numbers that a form of so many bytes holds lie below this.
fn bound(size: usize) -> u64
    requires { size ≤ 8 }
    ensures { result ≡ bound_of size }
{
    match size {
        0 => 0,
        1 => 0x80,
        _ => 1 << (8 * (size - 1)),
    }
}

// Whether a size is 1 to 9, and a form of that many bytes holds the number.
pub fn holds(size: usize, n: u64) -> bool
    ensures { result ≡ holds size n }
{
    if 9 < size {
        return false;
    }
    if size == 9 {
        return true;
    }
    n < bound(size)
}

// How many bytes the shortest form of a number takes.
pub fn shortest(n: u64) -> usize
    ensures { result ≡ shortest_size n }
{
    for size in 1..9 {
        if holds(size, n) {
            return size;
        }
    }
    9
}

// Writes the form of as many bytes as these, which holds the number.
fn put_form(n: u64, form: &mut [u8])
    requires { (length form.old ≤ 9) × (n < bound_of (length form.old)) }
    ensures { form.new ≡ form_of (length form.old) n }
{
    let size = form.len();
    if size < 2 {
        form[0] = n as u8;
        return;
    }
    let more = size - 1;
    form[0] = 0x80 + more as u8;
    put_number(form, 1, more, n);
}

// Writes a number at a place as a length of so many bytes.
pub fn put_length(n: u64, size: usize, out: &mut [u8], at: usize) -> Result<usize, WriteError>
    ensures { Wrote (holds size n) (form_of size n) at out.old result out.new }
{
    if !holds(size, n) {
        return Err(WriteError::Field);
    }
    let next = place_behind(out.len(), at, size)?;
    put_form(n, &mut out[at..next]);
    Ok(next)
}
