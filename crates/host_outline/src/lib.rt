// What a host links of the outline: numbers and slices in, a status and lent places out (include/brinethimble.h).
#![tactic(auto)]

ghost use Rattle.std.specs.Prelude.{◌≡◌, length};
ghost use Rattle.outline_text.specs.Said.{outline_said, outline_into};
ghost use Rattle.host_outline.specs.Places.{outline_places};

use outline_text::OutlineError;

// The outline of a file with an end, to a depth of 1 to 8, at the start of `text`.
#[tactic(auto, unfolding(crate::specs::Places::or_as_it_was, crate::specs::Places::outline_places))]
#[unsafe(no_mangle)]
pub extern "C" fn brine_outline(
    s: &[u8],
    end: usize,
    depth: usize,
    text: &mut [u8],
    out: &mut [u64; 1],
) -> u32
    ensures value { result ≡ (outline_said s.now end depth (length text.old)).0 }
    ensures out_after { out.new ≡ outline_places (outline_said s.now end depth (length text.old)) out.old }
    ensures text_after { text.new ≡ outline_into s.now end depth text.old }
{
    match outline_text::outline_into(s, end, depth, text) {
        Ok(n) => {
            *out = [n as u64];
            0
        }
        Err(OutlineError::End) => 1,
        Err(OutlineError::Depth) => 6,
        Err(OutlineError::Longer(n)) => {
            *out = [n as u64];
            3
        }
    }
}
