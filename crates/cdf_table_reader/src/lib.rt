// The reader that is driven by a table. A place of either reader is one of the other; what may come next is asked of
// the table.
#![tactic(auto)]

ghost use Rattle.std.specs.Prelude.{◌≡◌};
ghost use Rattle.cdf_unit_prefix.specs.Layout.{layout_for};
ghost use Rattle.cdf_reader.specs.View.{view, reply_from, no_place};
ghost use Rattle.cdf_table_reader_spec.specs.Table.{entries};
ghost use Rattle.cdf_table_reader_spec.specs.Calls.{table_first, table_next, table_skip};

pub use crate::table::TABLE;
use cdf_reader::{Answer, Place};
use cdf_refusal::Fault;
use cdf_table_reader_first::first_by;
use cdf_table_reader_step::next_by;
use cdf_unit_prefix::edition_of;

mod table;

// Where the reader is. What each open unit has had is a state of the table.
#[derive(Clone, Copy)]
pub struct TablePlace {
    pub place: Place,
}

// NEXT and a start, by any table that is lent, so that no proof looks into the 434 entries.
fn next_in(table: &[u8; 434], p: Place, s: &[u8]) -> Result<Answer, Fault>
    ensures { reply_from p result ≡ table_next table.now (layout_for s.now) s.now (view p) }
{
    Ok(next_by(table, p.cursor(), edition_of(s), s)?.into())
}

fn first_in(table: &[u8; 434], s: &[u8]) -> Result<Answer, Fault>
    ensures { reply_from no_place result ≡ table_first table.now (layout_for s.now) s.now }
{
    Ok(first_by(table, edition_of(s), s)?.into())
}

impl TablePlace {
    // NEXT: closes what ends here, then reads the unit at the position. Refused: nothing to do here, a place that does not fit, an incomplete unit
    // that ends, the end of the stream, and what the check refuses in a unit.
    pub fn next(self, s: &[u8]) -> Result<Answer, Fault>
        ensures { reply_from self.place result ≡ table_next entries (layout_for s.now) s.now (view self.place) }
    {
        next_in(&TABLE, self.place, s)
    }

    // SKIP: moves past the last unit, whatever it holds. It looks into no row, so it is the first reader's.
    pub fn skip(self, s: &[u8]) -> Result<Answer, Fault>
        ensures { reply_from self.place result ≡ table_skip (layout_for s.now) s.now (view self.place) }
    {
        self.place.skip(s)
    }
}

// FIRST, by row 0 of the table.
pub fn table_first(s: &[u8]) -> Result<Answer, Fault>
    ensures { reply_from no_place result ≡ table_first entries (layout_for s.now) s.now }
{
    first_in(&TABLE, s)
}
