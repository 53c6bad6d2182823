// Conversions of `floats`, run and compared: a line for each, with its kind, the input's bits and the result's bits.
//
// The file `stdout` holds what Rust answers for the same inputs. It was made by a Rust program that takes a kind and an input a, with v the low and h the
// high 32 bits of a, and prints the bits of the expression that stands at the kind in `sample` below, a NaN's as 7fc00000 or 7ff8000000000000.
// Among the lines is the unstarred number of docs/RULES.md, 4,294,967,295 to 4,294,967,296.
#![tactic(auto)]

use std::io::Print;

// Whole numbers and f32 bits: each power's two sides, ties to either side, and some at random.
const WHOLE: [u64; 65] = [
    0x0, 0x1, 0x2, 0x3, 0xa, 0xff, 0x100, 0x3e7, 0x3e8, 0x3e9, 0x7fff, 0x8000, 0xffff, 0x10000,
    0x7fffff, 0x800000, 0xffffff, 0x1000000, 0x1000001, 0x1000002, 0x1000003, 0x1000004, 0x1000005,
    0x1ffffff, 0x2000001, 0x2000002, 0x2000003, 0x2000006, 0x3000002, 0x7fffffff, 0x80000000,
    0x8000003f, 0x80000040, 0x80000080, 0x80000081, 0xffffff00, 0xffffff7f, 0xffffff80, 0xffffff81,
    0xffffffff, 0x3f800000, 0x41200000, 0x41200001, 0x44e10000, 0x7f7fffff, 0x7f800000, 0x7fc00000,
    0xff800000, 0xffc00001, 0x80000001, 0x8000ffff, 0xe7d80068, 0xb9096a04, 0xafae5a3b, 0xc963cfe0,
    0xc439f34a, 0xe1454c40, 0xe794ee14, 0x26b563b1, 0x42840d2b, 0xac8be7d7, 0xa2beee31, 0xd96e5adf,
    0xe7aa8576, 0x19fcfc64,
];

// Bits of f64: ties, the edges of the f32 range, subnormals, infinities, NaNs, and some at random.
const WIDE: [u64; 73] = [
    0x0,
    0x8000000000000000,
    0x1,
    0x8000000000000001,
    0xfffffffffffff,
    0x10000000000000,
    0x3ff0000000000000,
    0xbff0000000000000,
    0x3fb999999999999a,
    0xbfb999999999999a,
    0x3fd5555555555555,
    0x3ff0000010000000,
    0x3ff0000010000001,
    0x3ff000000fffffff,
    0x3ff0000030000000,
    0x3ff0000020000000,
    0xbff0000030000000,
    0x3fffffffefffffff,
    0x3ffffffff0000000,
    0x47efffffe0000000,
    0x47efffffefffffff,
    0x47effffff0000000,
    0x47f0000000000000,
    0xc7effffff0000000,
    0xc7f0000000000000,
    0x7fefffffffffffff,
    0x7ff0000000000000,
    0xfff0000000000000,
    0x7ff8000000000000,
    0x7ff0000000000001,
    0xfff8000000000001,
    0x3810000000000000,
    0x380fffffffffffff,
    0x380ffffff0000000,
    0x380fffffe0000000,
    0x380fffffd0000000,
    0x3800000000000000,
    0x37f0000020000000,
    0x36a0000000000000,
    0x36afffffffffffff,
    0x36b0000000000000,
    0x36b8000000000000,
    0x3690000000000000,
    0x3690000000000001,
    0x368fffffffffffff,
    0xb690000000000001,
    0x3680000000000000,
    0x35f0000000000000,
    0x35e0000000000001,
    0x40effc0000000000,
    0x4202a05f20000000,
    0x47efffffe54daff8,
    0x3696d601ad376ab9,
    0x368ff868bf4d956a,
    0x380fffffff9fdba8,
    0x4036820269599354,
    0x382f335c7972a36d,
    0x442a018751209e8f,
    0x2a18491ca0afe356,
    0x4573e1dc92bde31c,
    0x36d40e0530b9f609,
    0x2701e2169fbba638,
    0xb67383c0d756a407,
    0x481a5157cc8fc526,
    0xbf555faca5998165,
    0xc414617ea37feba2,
    0x6a967e0e2a27ead5,
    0xb9994929c79f25ee,
    0x4379b914e8245819,
    0x376fe1d52c1d8728,
    0x3b4e25bdc8b05024,
    0x80466efbbad32fc0,
    0xc462a022aad71c97,
];

// Two numbers of 32 bits.
const PAIRS: [u64; 24] = [
    0x0,
    0x100000000,
    0x1,
    0x100000003,
    0x100000009,
    0x10000000a,
    0x5dc0000003e9,
    0x7530000003e9,
    0x1c0000000a,
    0xfffd00000003,
    0xffffffff00000001,
    0xfffffffffffffffe,
    0x1ffffffff,
    0x200000003,
    0x2000000003,
    0x2100000004,
    0x4,
    0xffe00000001,
    0x7e000000ff,
    0x7f00000000,
    0xf025f1e11e177c0b,
    0x8ea995cd748989b0,
    0x33e86fd556205aa,
    0x92e62e7212b6d519,
];

// The bits of what Rattle's conversion of that kind answers.
fn sample(kind: u8, a: u64) -> u64 {
    let v = (a % 4294967296) as u32;
    let h = (a / 4294967296) as u32;
    match kind {
        // v as f32
        b'w' => floats::f32_bits(floats::nearest_f32(v)) as u64,
        // v as f32 / 1000.0
        b't' => floats::f32_bits(floats::thousandths_f32(v)) as u64,
        // (v as f64 * 0.001) as f32
        b'm' => floats::f32_bits(floats::metres_of_millimetres(v)) as u64,
        // (v as f64 * 0.0000254) as f32
        b'i' => floats::f32_bits(floats::metres_of_mils(v)) as u64,
        // v as u16 as i16 as f32 / 10.0
        b'a' => floats::f32_bits(floats::low_tenths(v)) as u64,
        // f32::from_bits(v).is_finite()
        b'b' => floats::finite_f32_bits(v) as u64,
        // with d = f32::from_bits(v): if d > 10.0 { d as f64 / 1000.0 } else { d as f64 }
        b'd' => floats::f64_bits(floats::density(floats::f32_of_bits(v))),
        // f64::from_bits(a) as f32
        b'n' => floats::f32_bits(floats::narrow_f32(floats::f64_of_bits(a))) as u64,
        // f64::from_bits(a).is_finite()
        b'f' => floats::finite_f64(floats::f64_of_bits(a)) as u64,
        // h as f64 / v as f64
        b'r' => floats::f64_bits(floats::ratio(h, v)),
        // h as f64 / v as f64 * 1000.0
        b's' => floats::f64_bits(floats::milliseconds(h, v)),
        // (h as u16 as f64 - 32.0) * 0.5 + v as u8 as f64 * 0.1
        b'g' => floats::f64_bits(floats::gain((h % 65536) as u16, (v % 256) as u8)),
        // (v as u16 as i32 - 0x8000) as f64 / 10.0
        _ => floats::f64_bits(floats::offset_tenths((v % 65536) as u16)),
    }
}

// The hexadecimal digit of d's low 4 bits.
fn digit(d: u64) -> u8 {
    b"0123456789abcdef"[(d % 16) as usize]
}

// Writes a line: the kind, a and r.
fn line(to: &impl Print, kind: u8, a: u64, r: u64) {
    let mut text = [b' '; 36];
    text[0] = kind;
    text[35] = b'\n';
    let mut x = a;
    let mut y = r;
    for i in 0..16usize {
        text[17 - i] = digit(x);
        text[34 - i] = digit(y);
        x = x / 16;
        y = y / 16;
    }
    let _ = to.write_all(&text);
}

// Writes a line for each input.
fn lines(to: &impl Print, kind: u8, inputs: &[u64]) {
    for a in inputs {
        line(to, kind, *a, sample(kind, *a));
    }
}

// Writes the lines of each kind over the same inputs.
fn table(to: &impl Print, kinds: &[u8], inputs: &[u64]) {
    for kind in kinds {
        lines(to, *kind, inputs);
    }
}

fn main(rt: HostRuntime) {
    table(&rt, b"wtmiabdo", &WHOLE);
    table(&rt, b"nf", &WIDE);
    table(&rt, b"rsg", &PAIRS);
}
