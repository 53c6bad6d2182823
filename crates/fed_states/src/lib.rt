// A fed walker's state, which the host lends: docs/RULES.md, "L2. A walker fed from the socket". It is opened, goes from piece to
// piece and is closed. Of the bytes that came it keeps no more than a label and the bytes of a length.
#![tactic(auto)]

ghost use Rattle.std.specs.Prelude.{◌≡◌, true, false, ◌+◌, ◌≤◌};
ghost use Rattle.fed_states.specs.State.{opened, sought, gone_on, shut, whole_label, length_of, sound_of};
ghost use Rattle.fed_states.specs.Close.{refused_by, rest_told, close_told, ends_by, close_of};

use lengths::{Field, NoLength};

// A walk as it is between two pieces.
#[derive(Clone, Copy, Debug, PartialEq, Eq)]
pub struct State {
    // How many bytes may come.
    pub limit: usize,
    // Where the key that is sought or was found starts, and how many bytes have come from there on.
    pub at: usize,
    pub have: usize,
    // Where walking last went on: the end of the last record.
    pub since: usize,
    // That key's label, as far as it has come; the last record's until the next byte comes.
    pub label: [u8; 16],
    // Whether exactly as many bytes as the limit will come, and whether the walk is open.
    pub known: bool,
    pub live: bool,
    // The nine bytes behind the label, as far as they have come.
    pub ber: [u8; 9],
}

// A label of which no more is known than its start.
const NO_LABEL: [u8; 16] = *b"\x06\x0e\x2b\x34\0\0\0\0\0\0\0\0\0\0\0\0";

// A walk of so many bytes: at most, or exactly.
fn open(limit: usize, known: bool) -> State
    ensures { result ≡ opened limit known }
{
    State {
        limit,
        known,
        live: true,
        at: 0,
        have: 0,
        since: 0,
        label: NO_LABEL,
        ber: [0; 9],
    }
}

// A walk of at most so many bytes.
pub fn open_limit(limit: usize) -> State
    ensures { result ≡ opened limit false }
{
    open(limit, false)
}

// A walk of exactly so many bytes.
pub fn open_end(end: usize) -> State
    ensures { result ≡ opened end true }
{
    open(end, true)
}

// A key is sought: so many bytes of its start have come at this place.
pub fn sought(st: State, at: usize, have: usize) -> State
    ensures { result ≡ sought st at have }
{
    State {
        at,
        have,
        label: NO_LABEL,
        ber: [0; 9],
        ..st
    }
}

// Behind a record with this label: walking goes on at its end.
pub fn gone_on(st: State, at: usize, label: [u8; 16]) -> State
    ensures { result ≡ gone_on st at label }
{
    State {
        at,
        have: 0,
        since: at,
        label,
        ber: [0; 9],
        ..st
    }
}

// The 16 bytes of the label at a place; zeros where they are not all there.
pub fn label_at(s: &[u8], at: usize) -> [u8; 16]
    ensures { result ≡ whole_label s.now at }
{
    let mut label = [0u8; 16];
    if s.len() < 16 {
        return label;
    }
    if s.len() - 16 < at {
        return label;
    }
    label.copy_from_slice(&s[at..at + 16]);
    label
}

// The length behind the label, as far as it has come.
pub fn length_of(st: State) -> Result<Field, NoLength>
    ensures { result ≡ length_of st }
{
    let ber = st.ber;
    let n = st.have.saturating_sub(16);
    lengths::read(parts::part(&ber, 0, n), 0)
}

// Whether a state is open, and within its limit.
pub fn sound(st: State) -> bool
    ensures { result ≡ sound_of st }
{
    if !st.live {
        return false;
    }
    if st.limit < st.at {
        return false;
    }
    st.have <= st.limit - st.at
}

// Why a call on a fed walk is refused.
#[derive(Clone, Copy, Debug, PartialEq, Eq)]
pub enum FedError {
    // 2: the piece would pass the limit or the end.
    TooMuch,
    // 5: the walk is closed, or its known end has not come.
    Closed,
}

impl FedError {
    // Its number: docs/RULES.md, "What a call can say".
    pub fn number(self) -> u32
        ensures { result ≡ refused_by self }
    {
        match self {
            FedError::TooMuch => 2,
            FedError::Closed => 5,
        }
    }
}

// Where a new walk is to be fed from, and its known end.
#[derive(Clone, Copy, Debug, PartialEq, Eq)]
pub struct Rest {
    pub from: usize,
    pub end: usize,
}

// What closing comes to: the state, and a rest where a value misses bytes. Where there is none, the finished list of the bytes
// that came is out.
#[derive(Clone, Copy, Debug, PartialEq, Eq)]
pub struct Shut {
    pub state: State,
    pub rest: Option<Rest>,
}

// The rest of a state that is within its limit: in a value, its start and how many of its bytes have come.
fn rest_of(st: State) -> Option<Rest>
    requires { st.at + st.have ≤ st.limit }
    ensures { rest_told (shut st) result ≡ ends_by st (length_of st) }
{
    let Ok(f) = length_of(st) else {
        return None;
    };
    let behind = 16 + f.size;
    Some(Rest {
        from: st.at + behind,
        end: st.have - behind,
    })
}

// Closes the walk: its list is out, or a new walk is to be fed.
pub fn close(st: State) -> Result<Shut, FedError>
    ensures { close_told st result ≡ close_of st }
{
    if !sound(st) {
        return Err(FedError::Closed);
    }
    if st.known && st.at + st.have < st.limit {
        return Err(FedError::Closed);
    }
    Ok(Shut {
        state: State { live: false, ..st },
        rest: rest_of(st),
    })
}
