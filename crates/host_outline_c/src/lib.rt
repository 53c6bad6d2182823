// What a host links of host_outline: its calls, with the same clauses (library/exports).
#![tactic(auto)]

ghost use Rattle.std.specs.Prelude.{◌≡◌, length};
ghost use Rattle.outline_text.specs.Said.{outline_said, outline_into};
ghost use Rattle.host_outline.specs.Places.{outline_places};

#[unsafe(no_mangle)]
pub extern "C" fn brine_outline(
    s: &[u8],
    end: usize,
    depth: usize,
    text: &mut [u8],
    out: &mut [u64; 1],
) -> u32
    ensures value { result ≡ (outline_said s.now end depth (length text.old)).0 }
    ensures out_after { out.new ≡ outline_places (outline_said s.now end depth (length text.old)) out.old }
    ensures text_after { text.new ≡ outline_into s.now end depth text.old }
{
    host_outline::brine_outline(s, end, depth, text, out)
}
