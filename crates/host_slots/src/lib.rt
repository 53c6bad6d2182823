// A value as a host's two arrays have it, its kind in one and its 64 bits in the other: include/brinethimble.h. Every list of
// values has the same 32 places.
#![tactic(auto)]

ghost use Rattle.std.specs.Prelude.{◌≡◌};
ghost use Rattle.host_slots.specs.Slots.{slot, nothing, single, double, kinds, patterns};

// The kinds: BRINE_KIND_*.
pub const NOTHING: u64 = 0;

pub const CODE: u64 = 1;

pub const WHOLE: u64 = 2;

pub const SIGNED: u64 = 3;

pub const F32: u64 = 4;

pub const F64: u64 = 5;

pub const FLAG: u64 = 6;

pub const INFINITY: u64 = 7;

pub const LINEAR: u64 = 8;

pub const OFF: u64 = 9;

pub const CLOSE: u64 = 10;

pub const OTHERS: u64 = 11;

pub const AUTO: u64 = 12;

pub const MANUAL: u64 = 13;

pub const RESERVED: u64 = 14;

// A value's kind and its bits: both are numbers because the C interface hands them out in two arrays of u64.
#[derive(Clone, Copy, Debug, PartialEq, Eq)]
pub struct Slot {
    pub kind: u64,
    pub bits: u64,
}

// A value of a kind.
pub fn of_kind(kind: u64, bits: u64) -> Slot
    ensures { result ≡ slot kind bits }
{
    Slot { kind, bits }
}

// No value.
pub fn nothing() -> Slot
    ensures { result ≡ nothing }
{
    of_kind(NOTHING, 0)
}

// An f32, by its bits.
pub fn single(x: f32) -> Slot
    ensures { result ≡ single x }
{
    of_kind(F32, u64::from(floats::f32_bits(x)))
}

// An f64, by its bits.
pub fn double(x: f64) -> Slot
    ensures { result ≡ double x }
{
    of_kind(F64, floats::f64_bits(x))
}

// Puts the values of all places. They are lent and copied one by one: a whole array goes by way of the stack.
pub fn put(slots: &[Slot; 32], kind: &mut [u64; 32], bits: &mut [u64; 32])
    ensures kind_after { kind.new ≡ kinds slots.now }
    ensures bits_after { bits.new ≡ patterns slots.now }
{
    for i in 0..32 {
        kind[i] = slots[i].kind;
        bits[i] = slots[i].bits;
    }
}
