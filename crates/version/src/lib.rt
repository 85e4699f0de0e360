// The version of the calls for C: which header an archive belongs to, and which cue files it reads. `version_c` exports it.
#![tactic(auto)]

ghost use Rattle.std.specs.Prelude.{◌≡◌};
ghost use Rattle.version.specs.Versions.{house_version};

use buffers::report::pack;

const MAJOR: u8 = 2;

const MINOR: u16 = 0;

const OLDEST_FILE: u32 = 1;

const NEWEST_FILE: u32 = 2;

// One number, HOUSE_VERSION of the header: a program compares the two.
pub fn house_version() -> u64
    ensures { result ≡ house_version }
{
    pack(MAJOR, MINOR, NEWEST_FILE * 65536 + OLDEST_FILE)
}
