// The values of an ARRI frame: docs/RULES.md, "Frame walks" and "Frame values". The element of an ALEXA 35 is read whole,
// that of an ALEXA Mini for its 256 bytes; a frame that is over-long, or has no such bytes, has no values.
#![tactic(auto)]

ghost use Rattle.std.specs.Prelude.{◌≡◌};
ghost use Rattle.arri_values.specs.Values.{mini_of, element_of, values_of};

use frame_values::Frame;
use frame_walks::{Arri, FrameElement};

// The values in an ALEXA Mini's element.
fn mini(element: &[u8]) -> Option<Frame>
    ensures { result ≡ mini_of element.now }
{
    let at = arri_block::find(element)?;
    Some(arri_mini::of_dynamic(arri_block::bytes(element, Some(at))))
}

// The values in an element, by its label.
pub fn in_element(label: &[u8], element: &[u8]) -> Option<Frame>
    ensures { result ≡ element_of label.now element.now }
{
    if labels::agree_but(label, &Arri::FRAME_DATA, 7, 13, 15) {
        return Some(arri_alexa35::of_alexa35(element));
    }
    mini(element)
}

// The values of a frame that ARRI's walk over s gave.
pub fn values_of(s: &[u8], f: FrameElement) -> Option<Frame>
    ensures { result ≡ values_of s.now f }
{
    if f.overlong {
        return None;
    }
    let k = f.element;
    in_element(k.label(s), k.bytes(s))
}
