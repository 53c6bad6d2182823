// Which library a host has linked: include/brinethimble.h.
#![tactic(auto)]

ghost use Rattle.std.specs.Prelude.{◌≡◌};
ghost use Rattle.host_version.specs.Version.{version};

// The version, as one number.
#[unsafe(no_mangle)]
pub extern "C" fn brine_version() -> u32
    ensures { result ≡ version }
{
    1000
}
