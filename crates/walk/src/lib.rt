// The walk over the KLVs of a buffer: docs/RULES.md, "The walk". A finished walk has a buffer and an end; the arriving walk
// has the bytes that have arrived and a limit. Both are these rules at a place, and a search between places.
#![tactic(auto)]

ghost use Rattle.std.specs.Prelude.{◌≡◌, ◌≤◌, length};
ghost use Rattle.walk.specs.Rules.{rules};
ghost use Rattle.walk.specs.declared.Turn.TheVariants as turn;
ghost use Rattle.walk.specs.Walk.{on_turn, walked};
ghost use Rattle.walk.specs.Passed.{finished_passing, arriving_passing};
ghost use Rattle.walk.specs.Told.{cursor_of, refused_by, told, step_on};
ghost use Rattle.walk.specs.Ways.{bounds_of, rest_of};

use klv::Klv;
use lengths::NoLength;

// What the rules say at a place.
#[derive(Clone, Copy, Debug, PartialEq, Eq)]
pub enum Turn {
    // The step ends here.
    Stop,
    // A key is to be searched from this place on.
    Search(usize),
    // A record starts here.
    Record(Klv),
}

// Where the turns from a place on lead.
#[derive(Clone, Copy, Debug, PartialEq, Eq)]
pub enum Walked {
    // To a record.
    Found(Klv),
    // To a place where the step ends.
    Stopped(usize),
    // To a search, from this place, that finds no key.
    Lost(usize),
}

// The bytes up to an end inside a buffer, and the limit within which a value that is missing is waited for: a finished walk, which
// waits for nothing, has the limit 0. A length may be read past the end, so the buffer is not cut there.
#[derive(Clone, Copy)]
struct Within<'a> {
    bytes: &'a [u8],
    end: usize,
    limit: usize,
    ghost inside: { end ≤ length bytes.now },
}

impl<'a> Within<'a> {
    // Rules 1 to 4 at a place. It is taken into a step, so that a record that starts at the cursor goes through no memory.
    #[inline(always)]
    fn look(self, p: usize) -> Turn
        ensures { result ≡ rules self.entry.limit self.entry.bytes.now self.entry.end p }
    {
        if self.end < 17 {
            return Turn::Stop;
        }
        if self.end - 17 < p {
            return Turn::Stop;
        }
        if !search::key_at(self.bytes, p) {
            return Turn::Search(p + 1);
        }
        let l = lengths::read(self.bytes, p + 16);
        let Ok(f) = l else {
            if l == Err(NoLength::Cut) {
                return Turn::Stop;
            }
            return Turn::Search(p + 17);
        };
        let v = p + 16 + f.size;
        let n = f.value;
        if n <= self.end.saturating_sub(v) as u64 {
            return Turn::Record(Klv {
                at: p,
                value: v,
                len: n as usize,
                size: f.size,
                shortest: f.shortest,
            });
        }
        if n <= self.limit.saturating_sub(v) as u64 {
            return Turn::Stop;
        }
        Turn::Search(v)
    }

    // The rules from where a search from q on leads, turn by turn.
    #[inline(never)]
    fn searched(self, from: usize) -> Walked
        ensures { let w = self.entry in result ≡ on_turn (walked w.limit w.bytes.now w.end) w.bytes.now w.end from (turn.Search from) }
    {
        let mut q = from;
        loop {
            let p = search::next_key(self.bytes, self.end, q);
            if self.end <= p {
                return Walked::Lost(q);
            }
            match self.look(p) {
                Turn::Stop => return Walked::Stopped(p),
                Turn::Record(k) => return Walked::Found(k),
                Turn::Search(next) => q = next,
            }
        }
    }

    // Where the turns from a place on lead.
    #[inline(always)]
    fn turns(self, p: usize) -> Walked
        ensures { result ≡ walked self.entry.limit self.entry.bytes.now self.entry.end p }
    {
        match self.look(p) {
            Turn::Stop => Walked::Stopped(p),
            Turn::Record(k) => Walked::Found(k),
            Turn::Search(from) => self.searched(from),
        }
    }
}

// Why a walk takes no step.
#[derive(Clone, Copy, Debug, PartialEq, Eq)]
pub enum WalkError {
    // 1: the end is larger than the buffer.
    ShortBuffer,
    // 2: there are more bytes than the limit.
    OverLimit,
}

impl WalkError {
    // Its number: docs/RULES.md, "What a call can say".
    pub fn number(self) -> u32
        ensures { result ≡ refused_by self }
    {
        match self {
            WalkError::ShortBuffer => 1,
            WalkError::OverLimit => 2,
        }
    }
}

// Which walk it is: the finished walk up to an end, or the arriving walk within a limit.
#[derive(Clone, Copy, Debug, PartialEq, Eq)]
pub enum Way {
    Finished(usize),
    Arriving(usize),
}

impl Way {
    // The end of the bytes that it walks, and the limit within which a value that is missing is waited for: none in a finished walk.
    pub fn bounds(self, s: &[u8]) -> Result<(usize, usize), WalkError>
        ensures { result ≡ bounds_of self s.now }
    {
        match self {
            Way::Finished(end) if s.len() < end => Err(WalkError::ShortBuffer),
            Way::Finished(end) => Ok((end, 0)),
            Way::Arriving(limit) if limit < s.len() => Err(WalkError::OverLimit),
            Way::Arriving(limit) => Ok((s.len(), limit)),
        }
    }

    // Where it rests after a search from q on that finds no key.
    fn rest(self, s: &[u8], q: usize) -> usize
        ensures { result ≡ rest_of self s.now q }
    {
        match self {
            Way::Finished(end) => end.max(q),
            Way::Arriving(_) => search::wait_from(s, q),
        }
    }
}

// Where a walk stands, and where walking last went on.
#[derive(Clone, Copy, Debug, PartialEq, Eq)]
pub struct Cursor {
    pub at: usize,
    pub since: usize,
}

// What a step of a walk finds.
#[derive(Clone, Copy, Debug, PartialEq, Eq)]
pub enum Step {
    // A record, the bytes passed before it, and the cursor past it.
    Record(Klv, usize, Cursor),
    // No record: the finished walk is over; the arriving walk waits, and its step is to be made again from this cursor.
    Rests(Cursor),
}

impl Cursor {
    // A step of either walk. It is taken into the two below and their callers, which know the way.
    #[inline(always)]
    pub fn on(self, s: &[u8], way: Way) -> Result<Step, WalkError>
        ensures { told s.now (cursor_of self) result ≡ step_on way s.now (cursor_of self) }
    {
        let (end, limit) = way.bounds(s)?;
        let within = Within {
            bytes: s,
            end,
            limit,
        };
        let since = self.since.min(self.at);
        match within.turns(self.at) {
            Walked::Found(k) => {
                let next = k.value + k.len;
                let past = Cursor {
                    at: next,
                    since: next,
                };
                Ok(Step::Record(k, k.at.saturating_sub(since), past))
            }
            Walked::Stopped(at) => Ok(Step::Rests(Cursor { at, since })),
            Walked::Lost(q) => {
                let at = way.rest(s, q);
                Ok(Step::Rests(Cursor { at, since }))
            }
        }
    }

    // A step of the finished walk: the next record wholly before the end.
    pub fn step(self, s: &[u8], end: usize) -> Result<Step, WalkError>
        ensures { told s.now (cursor_of self) result ≡ finished_passing s.now end (cursor_of self) }
    {
        self.on(s, Way::Finished(end))
    }

    // A step of the arriving walk: the next record that no later byte, within the limit, can unsay.
    pub fn arrive(self, a: &[u8], limit: usize) -> Result<Step, WalkError>
        ensures { told a.now (cursor_of self) result ≡ arriving_passing limit a.now (cursor_of self) }
    {
        self.on(a, Way::Arriving(limit))
    }
}
