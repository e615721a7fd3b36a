//! What the library says of itself.

ghost use Rattle.std.specs.Prelude.{◌≡◌};

/// Of version A.B.C the number 10,000 A + 100 B + C.
const VERSION: u32 = 200;

/// The version of the library.
#[unsafe(no_mangle)]
pub extern "C" fn bidigrid_version() -> u32
    ensures { result ≡ VERSION }
{
    VERSION
}
