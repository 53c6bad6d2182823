// What a host links of host_values: its calls, with the same clauses (library/exports).
#![tactic(auto)]

ghost use Rattle.std.specs.Prelude.{◌≡◌};
ghost use Rattle.host_slots.specs.Slots.{kinds, patterns};
ghost use Rattle.host_frame_places.specs.Places.{frame_slots, value_slots};
ghost use Rattle.arri_mini.specs.Dynamic.{dynamic_of};
ghost use Rattle.arri_alexa35.specs.Alexa.{alexa_of};
ghost use Rattle.arri_values.specs.Values.{values_of};
ghost use Rattle.host_values.specs.Values.{frame_of, found_places};

// The values in ARRI's 256 bytes.
#[unsafe(no_mangle)]
pub extern "C" fn brine_of_dynamic(block: &[u8], kind: &mut [u64; 32], bits: &mut [u64; 32]) -> u32
    ensures value { result ≡ 0 }
    ensures kind_after { kind.new ≡ kinds (frame_slots (dynamic_of block.now)) }
    ensures bits_after { bits.new ≡ patterns (frame_slots (dynamic_of block.now)) }
{
    host_values::brine_of_dynamic(block, kind, bits)
}

// The values in an ALEXA 35's element.
#[unsafe(no_mangle)]
pub extern "C" fn brine_of_alexa35(
    element: &[u8],
    kind: &mut [u64; 32],
    bits: &mut [u64; 32],
) -> u32
    ensures value { result ≡ 0 }
    ensures kind_after { kind.new ≡ kinds (frame_slots (alexa_of element.now)) }
    ensures bits_after { bits.new ≡ patterns (frame_slots (alexa_of element.now)) }
{
    host_values::brine_of_alexa35(element, kind, bits)
}

// The values of a frame that ARRI's walk gave; out says whether there are any.
#[unsafe(no_mangle)]
pub extern "C" fn brine_arri_values(
    s: &[u8],
    frame: &[u64; 4],
    out: &mut [u64; 1],
    kind: &mut [u64; 32],
    bits: &mut [u64; 32],
) -> u32
    ensures value { result ≡ 0 }
    ensures out_after { out.new ≡ found_places (values_of s.now (frame_of frame.now)) }
    ensures kind_after { kind.new ≡ kinds (value_slots (values_of s.now (frame_of frame.now))) }
    ensures bits_after { bits.new ≡ patterns (value_slots (values_of s.now (frame_of frame.now))) }
{
    host_values::brine_arri_values(s, frame, out, kind, bits)
}
