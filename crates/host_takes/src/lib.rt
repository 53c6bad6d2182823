// What a host links of two recordings of one take: numbers and slices in, a status and lent places out
// (include/brinethimble.h).
#![tactic(auto)]

ghost use Rattle.std.specs.Prelude.{◌≡◌};
ghost use Rattle.host_slots.specs.Slots.{kinds, patterns};
ghost use Rattle.takes.specs.Takes.{takes, takes_step};
ghost use Rattle.host_takes.specs.Places.{status_of, side_number, what_of, places_of, values_in, value_places, main_of, backup_of};

use frame_values::Frame;
use host_frame_places::put_values;
use take_frames::{Kind, Recorder};
use takes::Takes;

// What differs, the side that has it, and the fields that differ, by numbers, as the C interface hands them out.
#[derive(Clone, Copy, Debug, PartialEq, Eq)]
pub struct What {
    pub what: u64,
    pub side: u64,
    pub fields: u64,
}

// The values of both sides.
#[derive(Clone, Copy, Debug, PartialEq)]
pub struct Sides {
    pub main: Option<Frame>,
    pub backup: Option<Frame>,
}

// The side by its number.
fn side_number(r: Recorder) -> u64
    ensures { result ≡ side_number r }
{
    match r {
        Recorder::Main => 1,
        Recorder::Backup => 2,
    }
}

// What differs that only one side has.
fn one_sided(what: u64, r: Recorder) -> What
    ensures { result ≡ record { what = what; side = side_number r; fields = 0 } }
{
    let side = side_number(r);
    What {
        what,
        side,
        fields: 0,
    }
}

// What differs, by numbers.
fn what_of(k: Kind) -> What
    ensures { result ≡ what_of k }
{
    match k {
        Kind::Fields(b) => What {
            what: 1,
            side: 0,
            fields: b.fields as u64,
        },
        Kind::Values(r) => one_sided(2, r),
        Kind::Overlong(r) => one_sided(3, r),
        Kind::Only(r) => one_sided(4, r),
    }
}

// The values of both sides, where fields differ.
fn sides_of(k: Kind) -> Sides
    ensures { result ≡ record { main = values_in main_of k; backup = values_in backup_of k } }
{
    match k {
        Kind::Fields(b) => Sides {
            main: Some(b.main),
            backup: Some(b.backup),
        },
        Kind::Values(_) | Kind::Overlong(_) | Kind::Only(_) => Sides {
            main: None,
            backup: None,
        },
    }
}

// A step over two recordings: the next difference of the main and the backup file before their ends.
#[unsafe(no_mangle)]
pub extern "C" fn brine_takes_step(
    main: &[u8],
    main_end: usize,
    backup: &[u8],
    backup_end: usize,
    main_at: usize,
    backup_at: usize,
    number: u64,
    out: &mut [u64; 8],
    main_kind: &mut [u64; 32],
    main_bits: &mut [u64; 32],
    backup_kind: &mut [u64; 32],
    backup_bits: &mut [u64; 32],
) -> u32
    ensures value { result ≡ status_of (takes_step main.now main_end backup.now backup_end (takes main_at backup_at number)) }
    ensures out_after { out.new ≡ places_of (takes main_at backup_at number) (takes_step main.now main_end backup.now backup_end (takes main_at backup_at number)) out.old }
    ensures main_kind_after { main_kind.new ≡ value_places kinds main_of (takes_step main.now main_end backup.now backup_end (takes main_at backup_at number)) main_kind.old }
    ensures main_bits_after { main_bits.new ≡ value_places patterns main_of (takes_step main.now main_end backup.now backup_end (takes main_at backup_at number)) main_bits.old }
    ensures backup_kind_after { backup_kind.new ≡ value_places kinds backup_of (takes_step main.now main_end backup.now backup_end (takes main_at backup_at number)) backup_kind.old }
    ensures backup_bits_after { backup_bits.new ≡ value_places patterns backup_of (takes_step main.now main_end backup.now backup_end (takes main_at backup_at number)) backup_bits.old }
{
    let t = Takes {
        main: main_at,
        backup: backup_at,
        number,
    };
    match t.step(main, main_end, backup, backup_end) {
        Ok(Some((d, next))) => {
            let what = what_of(d.kind);
            let sides = sides_of(d.kind);
            *out = [
                1,
                d.number,
                what.what,
                what.side,
                what.fields,
                next.main as u64,
                next.backup as u64,
                next.number,
            ];
            put_values(sides.main, main_kind, main_bits);
            put_values(sides.backup, backup_kind, backup_bits);
            0
        }
        Ok(None) => {
            *out = [0, 0, 0, 0, 0, main_at as u64, backup_at as u64, number];
            put_values(None, main_kind, main_bits);
            put_values(None, backup_kind, backup_bits);
            0
        }
        Err(_) => 1,
    }
}
