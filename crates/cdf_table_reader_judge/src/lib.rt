// The judgement of one unit by a table that is lent: what the table admits, then the rules that come after it.
#![tactic(auto)]

ghost use Rattle.std.specs.Prelude.{false};
ghost use Rattle.cdf_table_reader_spec.specs.Table.{looked};
ghost use Rattle.cdf_table_reader_spec.specs.Calls.{table_judge};
ghost use Rattle.cdf_table_reader_spec.proofs.Staged.{table_keeps};

use cdf_reader_judges::Judges;
use cdf_refusal::Fault;
use cdf_unit_judge::{Admits, Admitted, judge};
use cdf_unit_own::Published;
use cdf_unit_prefix::Edition;

// A lent table: it tells what a state admits, and with the format's name bytes it judges the units of a step.
#[derive(Clone, Copy)]
pub struct Table<'a>(pub &'a [u8; 434]);

impl Admits for Table<'_> {
    ghost next = { λ by. looked by.0.now };

    // The entry of a state and an id, if there is one that is not 0.
    #[inline]
    fn admit(&self, state: usize, id: usize) -> Option<usize> {
        if (30 < state) | ((id < 1) | (14 < id)) {
            return None;
        }
        let at = state * 14 + (id - 1);
        match self.0[at] {
            0 => None,
            next => Some(next as usize),
        }
    }
}

impl Judges for Table<'_> {
    ghost finds = { λ by l. table_judge by.0.now l false };

    ghost keeps = { λ by l. table_keeps by.0.now l false };

    #[inline]
    #[tactic(auto, unfolding(cdf_table_reader_spec::specs::Calls::table_judge))]
    fn find(&self, edition: Edition, state: usize, s: &[u8]) -> Result<Admitted, Fault> {
        judge(&Published, self, edition, false, state, s)
    }
}
