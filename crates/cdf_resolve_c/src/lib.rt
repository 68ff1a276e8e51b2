// The import desk, for programs in C.
#![tactic(auto)]

ghost use Rattle.std.specs.Prelude.{◌≡◌, length};
ghost use Rattle.cdf_unit_prefix.specs.Layout.{layout_for};
ghost use Rattle.cdf_resolve_spec.specs.Resolve.{resolved_of, list_after};
ghost use Rattle.cdf_resolve_c.specs.Answer.{answer_of};

use cdf_resolve::resolve;

// Resolves the entity keys with temporary keys of an E/R group into a list, which a refusal leaves as it is: the number; in answer its offset,
// and how many ranks were written.
#[unsafe(no_mangle)]
pub extern "C" fn cdf_resolve(s: &[u8], list: &mut [u64], answer: &mut [u64; 2]) -> u64
    ensures number { result ≡ (resolved_of (layout_for s.now) s.now (length list.old)).number }
    ensures answer { answer.new ≡ answer_of (resolved_of (layout_for s.now) s.now (length list.old)) }
    ensures ranks { list.new ≡ list_after (layout_for s.now) s.now list.old }
{
    match resolve(s, list) {
        Ok(count) => {
            *answer = [0, count as u64];
            0
        }
        Err(fault) => {
            *answer = [fault.offset as u64, 0];
            fault.refusal.number() as u64
        }
    }
}
