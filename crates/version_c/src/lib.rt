// The version of the calls, exported to C: the archive of crates/version.
#![tactic(auto)]

ghost use Rattle.std.specs.Prelude.{◌≡◌};
ghost use Rattle.version.specs.Versions.{house_version};

// One number, HOUSE_VERSION of the header: a program compares the two.
#[unsafe(no_mangle)]
pub extern "C" fn house_version() -> u64
    ensures { result ≡ house_version }
{
    version::house_version()
}
