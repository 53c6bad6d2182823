// Numbers written, as `parts` reads them: the first byte is the highest.
#![tactic(auto)]

ghost use Rattle.std.specs.Prelude.{◌≡◌, ◌+◌, ◌≤◌, length};
ghost use Rattle.std.proofs.lemmas.List.Edits.{sets};
ghost use Rattle.written_numbers.specs.Number.{bytes_of, placed};

// Writes a number in the n bytes at a place that lie in out.
fn put_whole(out: &mut [u8], at: usize, n: usize, value: u64)
    requires { at + n ≤ length out.old }
    ensures { out.new ≡ sets out.old at (bytes_of n value) }
{
    let mut v = value;
    for i in (0..n).rev() {
        out[at + i] = (v % 256) as u8;
        v /= 256;
    }
}

// Writes the low 8n bits of a number in the n bytes at a place; nothing where they don't all lie in out.
pub fn put_number(out: &mut [u8], at: usize, n: usize, value: u64)
    ensures { out.new ≡ placed out.old at (bytes_of n value) }
{
    if at <= out.len() && n <= out.len() - at {
        put_whole(out, at, n, value);
    }
}
