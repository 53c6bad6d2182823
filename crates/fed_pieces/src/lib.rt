// The records of a piece: docs/RULES.md, "L2. A walker fed from the socket". What a call did not take of a piece is fed at once.
#![tactic(auto)]

ghost use Rattle.std.specs.Prelude.{◌≡◌};
ghost use Rattle.fed_pieces.specs.Pieces.{refusal_of, refused_as};

use fed_states::{FedError, State, sound};

// Whether a piece of so many bytes may come: the walk is open, and they pass neither the limit nor the end.
pub fn admit(st: State, len: usize) -> Result<(), FedError>
    ensures { refused_as result ≡ refusal_of st len }
{
    if !sound(st) {
        return Err(FedError::Closed);
    }
    if st.limit - (st.at + st.have) < len {
        return Err(FedError::TooMuch);
    }
    Ok(())
}
