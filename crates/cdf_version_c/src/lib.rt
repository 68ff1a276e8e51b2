// The version of the numbers that cross to programs in C.
#![tactic(auto)]

ghost use Rattle.std.specs.Prelude.{◌≡◌};
ghost use Rattle.cdf_version_c.specs.Version.{version};

// CDF_VERSION of include/.
const VERSION: u64 = 2;

#[unsafe(no_mangle)]
pub extern "C" fn cdf_version() -> u64
    ensures { result ≡ version }
{
    VERSION
}
