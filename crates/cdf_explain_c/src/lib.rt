// Why a stream is refused, for programs in C.
#![tactic(auto)]

ghost use Rattle.std.specs.Prelude.{◌≡◌};
ghost use Rattle.cdf_unit_prefix.specs.Layout.{layout_for};
ghost use Rattle.cdf_explain_spec.specs.Why.{why_of};
ghost use Rattle.cdf_explain_c.specs.Answer.{answer_of};

use cdf_explain::explain;

// Why s is refused: the number, 0 for an accepted stream; in answer the offset, the units that are open there, and the ids that could
// have stood there.
#[unsafe(no_mangle)]
pub extern "C" fn cdf_explain(s: &[u8], answer: &mut [u64; 25]) -> u64
    ensures number { result ≡ (why_of (layout_for s.now) s.now).number }
    ensures answer { answer.new ≡ answer_of (why_of (layout_for s.now) s.now) }
{
    let Some(told) = explain(s) else {
        *answer = [0; 25];
        return 0;
    };
    let [root, second, third, fourth] = told.units;
    let ids = told.choices.ids;
    *answer = [
        told.offset as u64,
        told.depth as u64,
        root.id as u64,
        root.start as u64,
        second.id as u64,
        second.start as u64,
        third.id as u64,
        third.start as u64,
        fourth.id as u64,
        fourth.start as u64,
        told.choices.count as u64,
        ids[0] as u64,
        ids[1] as u64,
        ids[2] as u64,
        ids[3] as u64,
        ids[4] as u64,
        ids[5] as u64,
        ids[6] as u64,
        ids[7] as u64,
        ids[8] as u64,
        ids[9] as u64,
        ids[10] as u64,
        ids[11] as u64,
        ids[12] as u64,
        ids[13] as u64,
    ];
    told.number as u64
}
