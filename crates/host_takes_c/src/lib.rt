// What a host links of host_takes: its calls, with the same clauses (library/exports).
#![tactic(auto)]

ghost use Rattle.std.specs.Prelude.{◌≡◌};
ghost use Rattle.host_slots.specs.Slots.{kinds, patterns};
ghost use Rattle.takes.specs.Takes.{takes, takes_step};
ghost use Rattle.host_takes.specs.Places.{status_of, places_of, value_places, main_of, backup_of};

// A step over two recordings: the next difference of the main and the backup file before their ends.
#[unsafe(no_mangle)]
pub extern "C" fn brine_takes_step(
    main: &[u8],
    main_end: usize,
    backup: &[u8],
    backup_end: usize,
    main_at: usize,
    backup_at: usize,
    number: u64,
    out: &mut [u64; 8],
    main_kind: &mut [u64; 32],
    main_bits: &mut [u64; 32],
    backup_kind: &mut [u64; 32],
    backup_bits: &mut [u64; 32],
) -> u32
    ensures value { result ≡ status_of (takes_step main.now main_end backup.now backup_end (takes main_at backup_at number)) }
    ensures out_after { out.new ≡ places_of (takes main_at backup_at number) (takes_step main.now main_end backup.now backup_end (takes main_at backup_at number)) out.old }
    ensures main_kind_after { main_kind.new ≡ value_places kinds main_of (takes_step main.now main_end backup.now backup_end (takes main_at backup_at number)) main_kind.old }
    ensures main_bits_after { main_bits.new ≡ value_places patterns main_of (takes_step main.now main_end backup.now backup_end (takes main_at backup_at number)) main_bits.old }
    ensures backup_kind_after { backup_kind.new ≡ value_places kinds backup_of (takes_step main.now main_end backup.now backup_end (takes main_at backup_at number)) backup_kind.old }
    ensures backup_bits_after { backup_bits.new ≡ value_places patterns backup_of (takes_step main.now main_end backup.now backup_end (takes main_at backup_at number)) backup_bits.old }
{
    host_takes::brine_takes_step(
        main,
        main_end,
        backup,
        backup_end,
        main_at,
        backup_at,
        number,
        out,
        main_kind,
        main_bits,
        backup_kind,
        backup_bits,
    )
}
