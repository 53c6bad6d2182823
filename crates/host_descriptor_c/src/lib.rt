// What a host links of host_descriptor: its calls, with the same clauses (library/exports).
#![tactic(auto)]

ghost use Rattle.std.specs.Prelude.{◌≡◌};
ghost use Rattle.host_slots.specs.Slots.{kinds, patterns};
ghost use Rattle.descriptor.specs.Descriptor.{descriptor_told};
ghost use Rattle.host_descriptor.specs.Places.{status_of, after};

// The items of a picture descriptor's set.
#[unsafe(no_mangle)]
pub extern "C" fn brine_descriptor(s: &[u8], kind: &mut [u64; 32], bits: &mut [u64; 32]) -> u32
    ensures value { result ≡ status_of (descriptor_told s.now) }
    ensures kind_after { kind.new ≡ after kinds (descriptor_told s.now) kind.old }
    ensures bits_after { bits.new ≡ after patterns (descriptor_told s.now) bits.old }
{
    host_descriptor::brine_descriptor(s, kind, bits)
}
