// What a host links of host_version: its calls, with the same clauses (library/exports).
#![tactic(auto)]

ghost use Rattle.std.specs.Prelude.{◌≡◌};
ghost use Rattle.host_version.specs.Version.{version};

// The version, as one number.
#[unsafe(no_mangle)]
pub extern "C" fn brine_version() -> u32
    ensures { result ≡ version }
{
    host_version::brine_version()
}
