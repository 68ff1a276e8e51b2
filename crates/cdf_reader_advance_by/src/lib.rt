// A step at any cursor: what NEXT does, without the test whether the place fits; where it cannot be done, a refusal of its own.
#![tactic(auto)]

ghost use Rattle.std.specs.Prelude.{◌≡◌};
ghost use Rattle.cdf_unit_prefix.specs.Layout.{layout_of};
ghost use Rattle.cdf_unit_data.specs.Standing.{row_bytes};
ghost use Rattle.cdf_reader_cursor.specs.Outcomes.{cursor_place, reply_from};
ghost use Rattle.cdf_reader_advance.specs.Advancing.{advanced_with, advanced_by};

use cdf_reader_cursor::{Cursor, Outcome};
use cdf_reader_enter::enter;
use cdf_reader_judges::Judges;
use cdf_reader_turn::turn;
use cdf_refusal::Fault;
use cdf_unit_prefix::Edition;

// Closes units, judges the one at the position, and enters it.
#[inline]
pub fn advance_with<J: Judges>(
    by: &J,
    c: Cursor,
    edition: Edition,
    s: &[u8],
) -> Result<Outcome, Fault>
    ensures { reply_from c result ≡ advanced_with (J.finds by.now (layout_of edition)) s.now (cursor_place c) }
{
    let found = turn(by, c, edition, s)?;
    Ok(enter(c, found.left, found.handed, found.next))
}

// The same by a lent row of name bytes.
pub fn advance(c: Cursor, row: &[u8; 256], edition: Edition, s: &[u8]) -> Result<Outcome, Fault>
    ensures { reply_from c result ≡ advanced_by (row_bytes row.now) (layout_of edition) s.now (cursor_place c) }
{
    advance_with(row, c, edition, s)
}
