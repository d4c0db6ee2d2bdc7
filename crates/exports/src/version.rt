// The library's version in one number, so that a program can hold the archive that it is linked with against the header that it
// was compiled with.
ghost use Rattle.std.specs.Prelude.{◌≡◌, ◌+◌, ◌*◌};

const MAJOR: u32 = 0;

const MINOR: u32 = 5;

const PATCH: u32 = 0;

// Version 0.5.0: major times 1,000,000, minor times 1,000 and patch.
#[unsafe(no_mangle)]
pub extern "C" fn teakpool_version() -> u32
    ensures { result ≡ 0 * 1000000 + 5 * 1000 + 0 }
{
    MAJOR * 1000000 + MINOR * 1000 + PATCH
}
