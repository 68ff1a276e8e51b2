// The rescue of a broken E/R group, for programs in C.
#![tactic(auto)]

ghost use Rattle.std.specs.Prelude.{◌≡◌, ◌∷◌, length};
ghost use Rattle.cdf_unit_prefix.specs.Layout.{layout_of};
ghost use Rattle.cdf_unit_prefix.specs.declared.Edition.TheVariants.{First};
ghost use Rattle.cdf_builder_write.specs.Patch.{patch};
ghost use Rattle.cdf_rescue_spec.specs.Salvage.{rescue_of};
ghost use Rattle.cdf_rescue_c.specs.Answer.{pairs, answer_of};

use cdf_rescue::{Report, rescue};

// Writes how many bytes the group has, how many runs were dropped, and of each run the first byte and the byte after its last.
// By `chunks_exact_mut(2)` it did not close: no lemma says what an array is after such a loop.
fn write_answer(answer: &mut [u64; 130], told: &Report)
    ensures { answer.new ≡ told.now.size ∷ told.now.count ∷ pairs told.now.runs }
{
    answer[0] = told.size as u64;
    answer[1] = told.count as u64;
    for (i, run) in told.runs.iter().enumerate() {
        answer[2 * i + 2] = run.from as u64;
        answer[2 * i + 3] = run.to as u64;
    }
}

// Rescues an E/R group into a buffer, which a refusal leaves as it is: the number; in answer how many bytes the group has, and the runs
// that were dropped.
#[unsafe(no_mangle)]
pub extern "C" fn cdf_rescue(s: &[u8], out: &mut [u8], answer: &mut [u64; 130]) -> u64
    ensures number { result ≡ (rescue_of (layout_of First) (length out.old) s.now).number }
    ensures answer { answer.new ≡ answer_of (rescue_of (layout_of First) (length out.old) s.now) }
    ensures bytes { out.new ≡ patch 0 (rescue_of (layout_of First) (length out.old) s.now).group
        out.old }
{
    match rescue(s, out) {
        Ok(told) => {
            write_answer(answer, &told);
            0
        }
        Err(refusal) => {
            *answer = [0; 130];
            refusal.number() as u64
        }
    }
}
