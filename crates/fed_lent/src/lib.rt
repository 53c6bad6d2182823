// The fed walker on a state that the host lends, which each call updates: docs/RULES.md, "L2. A walker fed from the socket".
#![tactic(auto)]

ghost use Rattle.std.specs.Prelude.{◌≡◌, IfOk, OnErr};
ghost use Rattle.fed_states.specs.Close.{close_of};
ghost use Rattle.fed_bytes.specs.Feed.{feed_of};
ghost use Rattle.fed.specs.Told.{feed_told};
ghost use Rattle.fed_lent.specs.Lent.{lent_told};

use fed::Fed;
use fed_states::{FedError, Rest, State};

// Takes the piece up to the byte that completes a record, else all of it.
pub fn feed(st: &mut State, piece: &[u8]) -> Result<Fed, FedError>
    ensures told { feed_told st.old result ≡ feed_of st.old piece.now }
    ensures ok { IfOk result (λ f. st.new ≡ f.state) }
    ensures err { OnErr result (st.new ≡ st.old) }
{
    let f = fed::feed(*st, piece)?;
    *st = f.state;
    Ok(f)
}

// Closes the walk: its list is out, or a new walk is to be fed.
pub fn close(st: &mut State) -> Result<Option<Rest>, FedError>
    ensures { lent_told st.new result ≡ close_of st.old }
{
    let c = fed_states::close(*st)?;
    *st = c.state;
    Ok(c.rest)
}
