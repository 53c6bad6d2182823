// An ALEXA 35's frame metadata (RDD 55) as a frame's values. The element is a run of sets, and each set a run of items. A
// set's label is not looked at; of an item's key bytes 0 to 3 and 8 to 13 are. The values are gathered in one pass
// (`arri_alexa35_values`).
#![tactic(auto)]

ghost use Rattle.std.specs.Prelude.{◌≡◌};
ghost use Rattle.arri_alexa35_values.specs.Values.{values_on};
ghost use Rattle.items.specs.After.{after};
ghost use Rattle.arri_alexa35.specs.Items.{in_set};
ghost use Rattle.arri_alexa35.specs.Alexa.{alexa_of};

use arri_alexa35_items::number_in;
use arri_alexa35_values::{Values, frame_of, none, values_on};
use frame_values::Frame;
use items::Run;

// What a set's items leave of the values.
fn after_set(values: Values, set: &[u8]) -> Values
    ensures { result ≡ after values_on values (in_set set.now) }
{
    let mut k = values;
    let mut items = Run { at: 0 };
    while let Some((i, next)) = items.step(set) {
        if let Some(n) = number_in(i.label(set)) {
            k = values_on(k, u64::from(n), i.bytes(set));
        }
        items = next;
    }
    k
}

// The values of a frame by its element.
pub fn of_alexa35(element: &[u8]) -> Frame
    ensures { result ≡ alexa_of element.now }
{
    let mut k = none();
    let mut sets = Run { at: 0 };
    while let Some((i, next)) = sets.step(element) {
        k = after_set(k, i.bytes(element));
        sets = next;
    }
    frame_of(k)
}
