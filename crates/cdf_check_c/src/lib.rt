// The check for programs in C.
#![tactic(auto)]

ghost use Rattle.std.specs.Prelude.{◌≡◌, [], ◌∷◌};
ghost use Rattle.cdf_unit_prefix.specs.Layout.{layout_for};
ghost use Rattle.cdf_unit_list.specs.Check.{check_of};

use cdf_check::check;

// The number; in answer the number of units where that is 0, and else the offset.
#[unsafe(no_mangle)]
pub extern "C" fn cdf_check(s: &[u8], answer: &mut [u64; 1]) -> u64
    ensures { (result ≡ (check_of (layout_for s.now) s.now).number)
        × (answer.new ≡ (check_of (layout_for s.now) s.now).value ∷ []) }
{
    match check(s) {
        Ok(n) => {
            *answer = [n as u64];
            0
        }
        Err(fault) => {
            *answer = [fault.offset as u64];
            fault.refusal.number() as u64
        }
    }
}
