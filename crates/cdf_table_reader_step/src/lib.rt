// The steps of the reader that is driven by a table: NEXT at a cursor, by any table that is lent. What may come next is asked of the
// table alone.
#![tactic(auto)]

ghost use Rattle.std.specs.Prelude.{◌≡◌, false};
ghost use Rattle.cdf_unit_prefix.specs.Layout.{layout_of};
ghost use Rattle.cdf_reader_cursor.specs.Outcomes.{cursor_place, reply_from};
ghost use Rattle.cdf_reader_advance.specs.Advancing.{advanced_with};
ghost use Rattle.cdf_table_reader_spec.specs.Calls.{table_judge, table_next};

use cdf_reader_advance_by::advance_with;
use cdf_reader_cursor::{Cursor, Outcome};
use cdf_reader_step::next_with;
use cdf_refusal::Fault;
use cdf_table_reader_judge::Table;
use cdf_unit_prefix::Edition;

// Closes units, judges the one at the position and enters it.
pub fn advance_by(
    table: &[u8; 434],
    c: Cursor,
    edition: Edition,
    s: &[u8],
) -> Result<Outcome, Fault>
    ensures { reply_from c result ≡ advanced_with (table_judge table.now (layout_of edition) false) s.now (cursor_place c) }
{
    advance_with(&Table(table), c, edition, s)
}

// NEXT: nothing to do here, a place that does not fit, then the step.
#[tactic(auto, unfolding(cdf_table_reader_spec::specs::Calls::table_next, cdf_reader_step::specs::Asked::next_with))]
pub fn next_by(table: &[u8; 434], c: Cursor, edition: Edition, s: &[u8]) -> Result<Outcome, Fault>
    ensures { reply_from c result ≡ table_next table.now (layout_of edition) s.now (cursor_place c) }
{
    next_with(&Table(table), c, edition, s)
}
