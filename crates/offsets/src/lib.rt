// A place of a file as a walk has it, and as the system has it: a signed number, which is below 0 where there is none.
#![tactic(auto)]

ghost use Rattle.std.specs.Prelude.{◌≡◌};
ghost use Rattle.offsets.specs.Offsets.{place_of, offset_of};

// The place that the system answered, 0 where it is none.
pub fn place_of(offset: i64) -> usize
    ensures { result ≡ place_of offset }
{
    usize::try_from(offset).unwrap_or(0)
}

// A place for the system, -1 where it can have none.
pub fn offset_of(place: usize) -> i64
    ensures { result ≡ offset_of place }
{
    i64::try_from(place).unwrap_or(-1)
}
