// What a host links of host_fed_records: its calls, with the same clauses (library/exports).
#![tactic(auto)]

ghost use Rattle.std.specs.Prelude.{◌≡◌};
ghost use Rattle.steps.specs.Told.{number};
ghost use Rattle.fed_bytes.specs.Feed.{feed_of};
ghost use Rattle.fed_pieces.specs.Pieces.{records_of, end_of};
ghost use Rattle.host_records.specs.Batch.{records_put};
ghost use Rattle.host_fed_states.specs.Places.{state_of};
ghost use Rattle.host_fed_records.specs.Many.{room, labels_put, many_state, many_places};

// As many records of a piece as there is room for.
#[unsafe(no_mangle)]
pub extern "C" fn brine_feed_records(
    state: &mut [u64; 10],
    piece: &[u8],
    records: &mut [u64],
    labels: &mut [u8],
    out: &mut [u64; 2],
) -> u32
    ensures value { result ≡ number (feed_of (state_of state.old) piece.now) }
    ensures state_after { state.new ≡ many_state state.old (end_of (room records.old labels.old) (state_of state.old) piece.now) (number (feed_of (state_of state.old) piece.now)) }
    ensures records_after { records.new ≡ records_put (records_of (room records.old labels.old) (state_of state.old) piece.now) 0 records.old }
    ensures labels_after { labels.new ≡ labels_put (records_of (room records.old labels.old) (state_of state.old) piece.now) 0 labels.old }
    ensures out_after { out.new ≡ many_places out.old (records_of (room records.old labels.old) (state_of state.old) piece.now) (end_of (room records.old labels.old) (state_of state.old) piece.now) (number (feed_of (state_of state.old) piece.now)) }
{
    host_fed_records::brine_feed_records(state, piece, records, labels, out)
}
