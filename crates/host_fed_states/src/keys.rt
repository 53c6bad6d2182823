// What a state keeps of a key, 25 bytes: whether all of it has come, and the length in it.
ghost use Rattle.std.specs.Prelude.{◌≡◌, ◌++◌, ◌&&◌, leb};
ghost use Rattle.labels.specs.Label.{key_at};
ghost use Rattle.lengths.specs.Length.{length_at};
ghost use Rattle.host_fed_states.specs.Places.{bytes_of};

use lengths::{Field, NoLength};

// Whether a key stands at a place, and n bytes from there on are all that is kept.
pub(crate) fn whole_key(b: &[u8], w: usize, n: usize) -> bool
    ensures { result ≡ leb 25 n && key_at b.now w }
{
    if n < 25 {
        return false;
    }
    search::key_at(b, w)
}

// The length that nine bytes begin with, by the numbers that hold the first and the others. The last bytes of those are shifted out:
// twice by half of their bits, since all 64 go where no byte holds the value. Whether the first of several bytes is 0 is asked of the
// value: a byte of the eight that is asked for by itself keeps the compiler from reading them at once.
pub(crate) fn length_of(lead: u64, eight: u64) -> Result<Field, NoLength>
    ensures { result ≡ length_at (bytes_of 1 lead ++ bytes_of 8 eight) 0 }
{
    let first = lead % 256;
    if first < 0x80 {
        return Ok(Field {
            value: first,
            size: 1,
            shortest: true,
        });
    }
    if 0x88 < first {
        return Err(NoLength::Invalid);
    }
    let n = first - 0x80;
    let half = 32 - 4 * n;
    let value = eight >> half >> half;
    let size = (1 + n) as usize;
    if n < 2 {
        return Ok(Field {
            value,
            size,
            shortest: 0x80 <= value,
        });
    }
    let less = 4 * n - 4;
    Ok(Field {
        value,
        size,
        shortest: 1 <= value >> less >> less,
    })
}
