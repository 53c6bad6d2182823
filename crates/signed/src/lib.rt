// Signed reads: bits that were read as an unsigned number, as the signed number that a file means by them. Angles, Canon's
// positions and the ALEXA 35's whole numbers are signed; in Canon's packs a value counts from 80h or 8000h.
#![tactic(auto)]

ghost use Rattle.std.specs.Prelude.{◌≡◌};
ghost use Rattle.signed.specs.Signed.{signed_bits, around};

// The 16 bits of v as a signed number.
pub fn signed16(v: u16) -> i16
    ensures { result ≡ signed_bits 16 v }
{
    u16::cast_signed(v)
}

// The 64 bits of v as a signed number.
pub fn signed64(v: u64) -> i64
    ensures { result ≡ signed_bits 64 v }
{
    u64::cast_signed(v)
}

// A byte that counts from 80h.
pub fn around8(v: u8) -> i16
    ensures { result ≡ around 8 v }
{
    i16::from(v) - 128
}

// Two bytes that count from 8000h.
pub fn around16(v: u16) -> i32
    ensures { result ≡ around 16 v }
{
    i32::from(v) - 32768
}
