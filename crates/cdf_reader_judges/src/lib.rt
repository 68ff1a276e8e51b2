// Who judges the units of a step: any row of name bytes here, a table in cdf_table_reader_judge.
#![tactic(auto)]

ghost use Rattle.std.specs.Prelude.{◌≡◌, ℕ, false, List};
ghost use Rattle.cdf_unit_prefix.specs.Layout.{Layout, layout_of};
ghost use Rattle.cdf_unit_judge.specs.Judge.{Judged, judge_in};
ghost use Rattle.cdf_unit_judge.specs.Answers.{judged};
ghost use Rattle.cdf_unit_judge.specs.Keeping.{Keeps};
ghost use Rattle.cdf_unit_judge.proofs.Keeping.{in_keeps};

use cdf_refusal::Fault;
use cdf_unit_judge::{Admitted, Grammar, judge};
use cdf_unit_own::NameRow;
use cdf_unit_prefix::Edition;

// Rules 3 to 9 for a unit nested in one that is in a state, by whatever tells what that state admits.
pub trait Judges {
    ghost finds: { Self → Layout → ℕ → List ℕ → Judged };

    // The unit at the front of these bytes.
    fn find(&self, edition: Edition, state: usize, s: &[u8]) -> Result<Admitted, Fault>
        ensures { judged result ≡ finds self.now (layout_of edition) state s.now };

    // What is found lies in the bytes.
    ghost keeps: { (by : Self) (l : Layout) → Keeps (finds by l) };
}

impl<R: NameRow> Judges for R {
    ghost finds = { λ row l. judge_in (R.bytes row) l false };

    ghost keeps = { λ row l. in_keeps (R.bytes row) l false };

    #[inline]
    #[tactic(auto, unfolding(cdf_unit_judge::specs::Judge::judge_in))]
    fn find(&self, edition: Edition, state: usize, s: &[u8]) -> Result<Admitted, Fault> {
        judge(self, &Grammar, edition, false, state, s)
    }
}
