//! The library's version.
ghost use Rattle.std.specs.Prelude.{◌≡◌, ◌≢◌, ◌≤◌, [], ◌∷◌, codes, length, take, drop};
ghost use Rattle.warg_c.specs.Statuses.{WARG_OK, WARG_TOO_SMALL, IsOneOf, Unless};
ghost use Rattle.warg_c.specs.Texts.{NeedsRoom};

use crate::call_error::status;
use crate::given::give;

// tools/release writes the version anew.
const VERSION: &str = "0.1.0";

/// The library's version, as "1.2.3".
#[unsafe(no_mangle)]
pub extern "C" fn warg_version(text: &mut [u8], used: &mut usize) -> u32
    ensures statuses { IsOneOf (WARG_OK ∷ WARG_TOO_SMALL ∷ []) result }
    ensures ok { result ≡ WARG_OK → take used.new text.new ≡ codes "0.1.0" }
    ensures too_small { result ≡ WARG_TOO_SMALL →
        NeedsRoom (λ version. version ≡ codes "0.1.0") used.new text.old }
    ensures buffer { result ≢ WARG_OK → text.new ≡ text.old }
    ensures used { Unless (WARG_OK ∷ WARG_TOO_SMALL ∷ []) result (used.new ≡ 0) }
    ensures behind { drop used.new text.new ≡ drop used.new text.old }
    ensures within { result ≢ WARG_TOO_SMALL → used.new ≤ length text.new }
{
    status(give(VERSION.as_bytes(), text, used))
}
