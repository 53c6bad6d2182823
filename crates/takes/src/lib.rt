// Two recordings of one take, frame by frame: docs/RULES.md, "L14. Two recordings of one take". A cursor goes over ARRI's walks of
// both files at once, and a step answers the next difference. Frames meet by their numbers; places and lengths aren't compared.
#![tactic(auto)]

ghost use Rattle.std.specs.Prelude.{◌≡◌, ◌≤◌, length};
ghost use Rattle.takes.specs.Takes.{side_of, left_of, differing, met_of, takes_step};

use frame_walks::{Arri, FrameStep, Place};
use take_frames::{Kind, Recorded, Recorder};

#[derive(Clone, Copy, Debug, PartialEq)]
pub struct Difference {
    pub number: u64,
    pub kind: Kind,
}

// A recorder's next frame, and where its walk goes on.
#[derive(Clone, Copy, Debug, PartialEq)]
pub struct Stop {
    pub recorded: Recorded,
    pub next: usize,
}

// Where both walks stand, and the number of the next frame.
#[derive(Clone, Copy, Debug, PartialEq, Eq)]
pub struct Takes {
    pub main: usize,
    pub backup: usize,
    pub number: u64,
}

// A file's end is larger than its buffer.
#[derive(Clone, Copy, Debug, PartialEq, Eq)]
pub enum EndTooLarge {
    First,
    Second,
}

// The next frame of a recorder's file from a place on. Nothing here goes by the bytes that were passed, so that the place
// serves for where walking last went on.
fn next_of(s: &[u8], end: usize, at: usize, number: u64) -> Option<Stop>
    requires { end ≤ length s.now }
    ensures { result ≡ side_of s.now (left_of s.now end at number) }
{
    let walk = Arri {
        place: Place {
            at,
            since: at,
            number,
        },
    };
    match walk.step(s, end) {
        Ok(FrameStep::Frame(f, _, c)) => Some(Stop {
            recorded: Recorded {
                overlong: f.overlong,
                values: arri_values::values_of(s, f),
            },
            next: c.at,
        }),
        // Never: ARRI's walk gives nothing beside frames.
        Ok(FrameStep::Given(_, _, _)) => None,
        Ok(FrameStep::Rests(_)) => None,
        // Never: the end lies within the buffer.
        Err(_) => None,
    }
}

// What differs at a number, if anything does.
fn differing(number: u64, kind: Option<Kind>) -> Option<Difference>
    ensures { result ≡ differing number kind }
{
    Some(Difference {
        number,
        kind: kind?,
    })
}

// What comes of the two sides of a number: what differs, and where both walks go on. Nothing comes where both are over.
pub fn meet(t: Takes, x: Option<Stop>, y: Option<Stop>) -> Option<(Option<Difference>, Takes)>
    ensures { result ≡ met_of t x y }
{
    let number = t.number.wrapping_add(1);
    match (x, y) {
        (Some(p), Some(q)) => Some((
            differing(t.number, take_frames::compare(p.recorded, q.recorded)),
            Takes {
                main: p.next,
                backup: q.next,
                number,
            },
        )),
        (Some(p), None) => Some((
            differing(t.number, Some(Kind::Only(Recorder::Main))),
            Takes {
                main: p.next,
                number,
                ..t
            },
        )),
        (None, Some(q)) => Some((
            differing(t.number, Some(Kind::Only(Recorder::Backup))),
            Takes {
                backup: q.next,
                number,
                ..t
            },
        )),
        (None, None) => None,
    }
}

impl Takes {
    // The next difference of the two files before their ends, with the moved cursor; none where both are over.
    pub fn step(
        self,
        main: &[u8],
        main_end: usize,
        backup: &[u8],
        backup_end: usize,
    ) -> Result<Option<(Difference, Takes)>, EndTooLarge>
        ensures { result ≡ takes_step main.now main_end backup.now backup_end self }
    {
        if main.len() < main_end {
            return Err(EndTooLarge::First);
        }
        if backup.len() < backup_end {
            return Err(EndTooLarge::Second);
        }
        let mut t = self;
        while let Some((found, u)) = meet(
            t,
            next_of(main, main_end, t.main, t.number),
            next_of(backup, backup_end, t.backup, t.number),
        ) {
            if let Some(d) = found {
                return Ok(Some((d, u)));
            }
            t = u;
        }
        Ok(None)
    }
}
