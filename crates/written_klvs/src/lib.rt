// KLVs written, one at a place or a whole run in shortest form: docs/RULES.md, "L8. Writers".
#![tactic(auto)]

ghost use Rattle.std.specs.Prelude.{◌≡◌, true, ◌+◌, ◌≤◌, length};
ghost use Rattle.std.proofs.lemmas.List.Edits.{sets};
ghost use Rattle.written_lengths.specs.Form.{holds};
ghost use Rattle.written_lengths.specs.Wrote.{Wrote};
ghost use Rattle.written_klvs.specs.Klvs.{klv_bytes, rewritten};

use items::Run;
use text::put_all;
use written_lengths::{WriteError, holds, place_behind, put_length, shortest};

// Writes a KLV in as many bytes as it has, its length in a form that holds it.
fn put_parts(label: &[u8], size: usize, value: &[u8], klv: &mut [u8])
    requires { (length label.now ≡ 16) × (holds size (length value.now) ≡ true) × (length klv.old ≡ 16 + size + length value.now) }
    ensures { klv.new ≡ klv_bytes label.now size value.now }
{
    put_all(klv, 0, label);
    put_length(value.len() as u64, size, klv, 16).unwrap();
    put_all(klv, 16 + size, value);
}

// Writes a KLV at a place: its label, its length in so many bytes, its value.
pub fn put_klv(
    label: &[u8; 16],
    size: usize,
    value: &[u8],
    out: &mut [u8],
    at: usize,
) -> Result<usize, WriteError>
    ensures { Wrote (holds size (length value.now)) (klv_bytes label.now size value.now) at out.old result out.new }
{
    if !holds(size, value.len() as u64) {
        return Err(WriteError::Field);
    }
    let needed = 16 + size + value.len();
    let next = place_behind(out.len(), at, needed)?;
    put_parts(label, size, value, &mut out[at..next]);
    Ok(next)
}

// How long a run is in shortest form.
fn length_of(s: &[u8]) -> usize
    ensures { result ≡ length (rewritten s.now) }
{
    let mut n = 0;
    let mut run = Run { at: 0 };
    while let Some((k, next)) = run.step(s) {
        n += 16 + shortest(k.len as u64) + k.len;
        run = next;
    }
    n
}

// Writes a run in shortest form at the start of out, which has room for it.
fn put_run(s: &[u8], out: &mut [u8])
    requires { length (rewritten s.now) ≤ length out.old }
    ensures { out.new ≡ sets out.old 0 (rewritten s.now) }
{
    let mut r = 0;
    let mut run = Run { at: 0 };
    while let Some((k, next)) = run.step(s) {
        let size = shortest(k.len as u64);
        let end = r + (16 + size + k.len);
        put_parts(k.label(s), size, k.bytes(s), &mut out[r..end]);
        r = end;
        run = next;
    }
}

// Writes the KLVs of a run at the start of out, each length in its shortest form.
pub fn rewrite(s: &[u8], out: &mut [u8]) -> Result<usize, WriteError>
    ensures { Wrote true (rewritten s.now) 0 out.old result out.new }
{
    let n = length_of(s);
    if out.len() < n {
        return Err(WriteError::Longer(n));
    }
    put_run(s, out);
    Ok(n)
}
