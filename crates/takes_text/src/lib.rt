// A difference of two recordings as lines of text: docs/RULES.md, "L14. Two recordings of one take". A line has the frame's number,
// the field, and what the main and the backup recorder have: `0 tint 0000000000000000 8000000000000000`. Floats stand by their
// bits, nothing is `-`; what only one recorder has is `yes` on its side: `1 only yes -`.
#![tactic(auto)]

ghost use Rattle.std.specs.Prelude.{◌≡◌, ◌<◌};
ghost use Rattle.text.specs.Write.{Put};
ghost use Rattle.take_figures.specs.Figures.{figure_text};
ghost use Rattle.takes_text.specs.Lines.{has, head_of, line_of, field_line, name_of, field_lines, yes_of, sided_line, difference_lines};

use frame_differences::{Said, row};
use take_figures::put_figure;
use take_frames::{Both, Kind, Recorder};
use takes::Difference;
use text::{put_all, put_byte, put_decimal};

// Whether a field is one of those that differ.
fn has(fields: u32, k: u32) -> bool
    requires { k < 32 }
    ensures { result ≡ has fields k }
{
    (fields >> k) % 2 == 1
}

// Puts a line's number and field, each with a space behind it.
fn put_head(out: &mut [u8], at: usize, number: u64, name: &[u8]) -> usize
    ensures { Put (head_of number name.now) out.old at out.new result }
{
    let a = put_decimal(out, at, number);
    let b = put_byte(out, a, b' ');
    let c = put_all(out, b, name);
    put_byte(out, c, b' ')
}

// Puts the line of a field that differs.
fn put_line(
    out: &mut [u8],
    at: usize,
    number: u64,
    name: &[u8],
    x: Option<Said>,
    y: Option<Said>,
) -> usize
    ensures { Put (line_of number name.now (figure_text x) (figure_text y)) out.old at out.new result }
{
    let a = put_head(out, at, number, name);
    let b = put_figure(out, a, x);
    let c = put_byte(out, b, b' ');
    let d = put_figure(out, c, y);
    put_byte(out, d, b'\n')
}

// Puts a field's line, where it differs.
fn put_field(
    out: &mut [u8],
    at: usize,
    number: u64,
    fields: u32,
    k: usize,
    name: &[u8],
    x: [Option<Said>; 19],
    y: [Option<Said>; 19],
) -> usize
    requires { k < 19 }
    ensures { Put (field_line number fields k name.now x y) out.old at out.new result }
{
    if has(fields, k as u32) {
        return put_line(out, at, number, name, x[k], y[k]);
    }
    at
}

// The fields by their names, in the order of the header.
const NAMES: [&[u8]; 19] = [
    b"focal_length",
    b"focus_distance",
    b"t_stop",
    b"exposure_time",
    b"shutter_angle",
    b"tilt_roll",
    b"exposure_index",
    b"white_balance",
    b"nd_density",
    b"effective_focal_length",
    b"white_balance_factors",
    b"focus_lds",
    b"focus_motor",
    b"zoom_lds",
    b"zoom_motor",
    b"iris_lds",
    b"iris_motor",
    b"tint",
    b"sensor_rate",
];

// The name of field k.
fn name_of(k: usize) -> &'static [u8]
    requires { k < 19 }
    ensures { result.now ≡ name_of k }
{
    NAMES[k]
}

// Puts a line for each field that differs.
fn put_fields(out: &mut [u8], at: usize, number: u64, b: Both) -> usize
    ensures { Put (field_lines number b) out.old at out.new result }
{
    let x = row(b.main);
    let y = row(b.backup);
    let mut p = at;
    for k in 0..19 {
        p = put_field(out, p, number, b.fields, k, name_of(k), x, y);
    }
    p
}

// Puts which side has something.
fn put_yes(out: &mut [u8], at: usize, r: Recorder) -> usize
    ensures { Put (yes_of r) out.old at out.new result }
{
    match r {
        Recorder::Main => put_all(out, at, b"yes -\n"),
        Recorder::Backup => put_all(out, at, b"- yes\n"),
    }
}

// Puts the line of what only one side has.
fn put_sided(out: &mut [u8], at: usize, number: u64, name: &[u8], r: Recorder) -> usize
    ensures { Put (sided_line number name.now r) out.old at out.new result }
{
    let a = put_head(out, at, number, name);
    put_yes(out, a, r)
}

// Puts the lines of a difference: one, or one for each field that differs.
pub fn put_difference(out: &mut [u8], at: usize, d: Difference) -> usize
    ensures { Put (difference_lines d) out.old at out.new result }
{
    let n = d.number;
    match d.kind {
        Kind::Fields(b) => put_fields(out, at, n, b),
        Kind::Values(r) => put_sided(out, at, n, b"values", r),
        Kind::Overlong(r) => put_sided(out, at, n, b"over-long", r),
        Kind::Only(r) => put_sided(out, at, n, b"only", r),
    }
}
