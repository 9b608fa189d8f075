// The version.
ghost use Rattle.std.specs.Prelude.{◌≡◌};
ghost use Rattle.tulonkasa.specs.Version.{version};

const MAJOR: u32 = 1;

const MINOR: u32 = 0;

const PATCH: u32 = 0;

// The version as one number, which rises from release to release.
#[unsafe(no_mangle)]
pub extern "C" fn tk_version() -> u32
    ensures { result ≡ version }
{
    1000000 * MAJOR + 1000 * MINOR + PATCH
}
