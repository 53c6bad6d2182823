// What a host links of host_canon: its calls, with the same clauses (library/exports).
#![tactic(auto)]

ghost use Rattle.std.specs.Prelude.{◌≡◌};
ghost use Rattle.host_slots.specs.Slots.{kinds, patterns};
ghost use Rattle.canon_packs.specs.Camera.{camera_of};
ghost use Rattle.host_canon.specs.Places.{camera_slots};

// The packs of a Private Camera Metadata.
#[unsafe(no_mangle)]
pub extern "C" fn brine_camera(s: &[u8], kind: &mut [u64; 32], bits: &mut [u64; 32]) -> u32
    ensures value { result ≡ 0 }
    ensures kind_after { kind.new ≡ kinds (camera_slots (camera_of s.now)) }
    ensures bits_after { bits.new ≡ patterns (camera_slots (camera_of s.now)) }
{
    host_canon::brine_camera(s, kind, bits)
}
