// A start of the reader that is driven by a table: the root's rules, by row 0 of any table that is lent.
#![tactic(auto)]

ghost use Rattle.std.specs.Prelude.{◌≡◌};
ghost use Rattle.cdf_unit_prefix.specs.Layout.{layout_of};
ghost use Rattle.cdf_reader_cursor.specs.Outcomes.{reply_from, no_cursor};
ghost use Rattle.cdf_table_reader_spec.specs.Calls.{table_first};

use cdf_reader_cursor::{Outcome, begun};
use cdf_refusal::Fault;
use cdf_table_reader_judge::Table;
use cdf_unit_judge::judge;
use cdf_unit_own::Published;
use cdf_unit_prefix::Edition;

// A start: the root's rules, by row 0. A root that admits others is opened.
#[tactic(auto, unfolding(cdf_table_reader_spec::specs::Calls::table_first))]
pub fn first_by(table: &[u8; 434], edition: Edition, s: &[u8]) -> Result<Outcome, Fault>
    ensures { reply_from no_cursor result ≡ table_first table.now (layout_of edition) s.now }
{
    begun(judge(&Published, &Table(table), edition, true, 0, s))
}
