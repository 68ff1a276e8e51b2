// The reader: a place goes in with each call and a new one comes back. What a call does stands in the crates below, on the parts of
// a place; here are the calls by their names.
#![tactic(auto)]

ghost use Rattle.std.specs.Prelude.{◌≡◌, ◌+◌};
ghost use Rattle.cdf_unit_prefix.specs.Layout.{layout_of, layout_for};
ghost use Rattle.cdf_reader_spec.specs.Calls.{first_of, next_of, skip_of, take_of, previous_of, abnormal_end, call_of};
ghost use Rattle.cdf_reader_spec.specs.declared.Call.TheVariants.{Previous};
ghost use Rattle.cdf_reader_spec.specs.Closing.{closed_at};
ghost use Rattle.cdf_unit_data.specs.Standing.{row_bytes};
ghost use Rattle.cdf_reader_advance.specs.Advancing.{advanced_by};
ghost use Rattle.cdf_reader.specs.View.{view, reply_of, reply_from, part_at, bytes_of, no_place};
ghost use Rattle.cdf_reader.specs.Uses.{place_kept, Again};
ghost use Rattle.cdf_reader.specs.Cursors.{cursor_of, place_with, answer_of};

use cdf_open_units::OpenUnits;
use cdf_reader_advance_by::advance;
use cdf_reader_close::{close, rank_at};
use cdf_reader_cursor::{Cursor, Outcome, first_as as start_as, moved, no_cursor};
use cdf_reader_spec::{Call, Ranks};
use cdf_reader_step::{call_at, next_at};
pub use cdf_reader_use::is_start;
use cdf_refusal::Fault;
use cdf_unit_list::{Open, Ranked, Unit};
use cdf_unit_prefix::{Edition, edition_of};

// Where a reader is: the position; the open units; the last unit handed out, and whether that one may still be skipped; the ranks of all
// these. Which place of the format this is, its view says.
#[derive(Clone, Copy)]
pub struct Place {
    pub position: usize,
    pub units: OpenUnits<Open>,
    pub last: Unit,
    pub fresh: bool,
    pub ranks: Ranks,
}

// What a call that succeeds answers: the unit handed out with its depth and rank (zeros where none is) and the new place. A refusal leaves the
// place that was given, and a start's none.
#[derive(Clone, Copy)]
pub struct Answer {
    pub handed: Ranked,
    pub place: Place,
}

impl From<Cursor> for Place {
    ghost from_gives = { λ c p. p ≡ place_with c };

    fn from(c: Cursor) -> Place {
        Place {
            position: c.position,
            units: c.units,
            last: c.last,
            fresh: c.fresh,
            ranks: c.ranks,
        }
    }
}

impl From<Outcome> for Answer {
    ghost from_gives = { λ o a. a ≡ answer_of o };

    fn from(o: Outcome) -> Answer {
        Answer {
            handed: o.handed,
            place: Place::from(o.cursor),
        }
    }
}

impl Place {
    // The same parts.
    pub fn cursor(self) -> Cursor
        ensures { result ≡ cursor_of self }
    {
        Cursor {
            position: self.position,
            units: self.units,
            last: self.last,
            fresh: self.fresh,
            ranks: self.ranks,
        }
    }

    // Any call.
    pub fn call(self, call: Call, s: &[u8]) -> Result<Answer, Fault>
        ensures is { reply_from (place_kept call self) result ≡ call_of (layout_for s.now) s.now (view self) call }
        ensures again { call ≡ Previous → Again self result }
    {
        Ok(call_at(self.cursor(), edition_of(s), call, s)?.into())
    }

    // NEXT: closes what ends here, then reads the unit at the position. Refused: nothing to do here, a place that does not fit, an incomplete unit
    // that ends, the end of the stream, and what the check refuses in a unit.
    pub fn next(self, s: &[u8]) -> Result<Answer, Fault>
        ensures { reply_from self result ≡ next_of (layout_for s.now) s.now (view self) }
    {
        Ok(next_at(self.cursor(), edition_of(s), s)?.into())
    }

    // NEXT without a test of the place, for loops, by a row of name bytes: with the format's row, `NAME_BYTES`, at a place that fits, as each is that
    // a call hands back, it is NEXT (`advances`). At the empty place it tells the end, and at any other it may tell that no step can be done.
    pub fn advance(self, row: &[u8; 256], edition: Edition, s: &[u8]) -> Result<Answer, Fault>
        ensures { reply_from self result ≡ advanced_by (row_bytes row.now) (layout_of edition) s.now (view self) }
    {
        Ok(advance(self.cursor(), row, edition, s)?.into())
    }

    // SKIP: moves past the last unit, whatever it holds.
    pub fn skip(self, s: &[u8]) -> Result<Answer, Fault>
        ensures { reply_from self result ≡ skip_of (layout_for s.now) s.now (view self) }
    {
        self.call(Call::Skip, s)
    }

    // GET_STREAM's answer without the part: as SKIP, for groups alone.
    pub fn get_stream_place(self, s: &[u8]) -> Result<Answer, Fault>
        ensures { reply_from self result ≡ take_of (layout_for s.now) s.now (view self) }
    {
        self.call(Call::GetStream, s)
    }

    // PREVIOUS: hands out the last unit again.
    pub fn previous(self, s: &[u8]) -> Result<Answer, Fault>
        ensures is { reply_from self result ≡ previous_of (layout_for s.now) s.now (view self) }
        ensures kept { Again self result }
    {
        self.call(Call::Previous, s)
    }

    // ABNORMAL_END: gives the reading up.
    pub fn abnormal_end(self) -> Answer
        ensures is { reply_of result ≡ abnormal_end }
        ensures cleared { result.place ≡ no_place }
    {
        Answer::from(moved(no_cursor()))
    }

    // The place once the complete units that end at its position are closed: what is open where a refused unit stands, for a tool that
    // says so.
    pub fn close_ended(self) -> Place
        ensures { view result ≡ closed_at (view self) }
    {
        let left = close(self.position, self.units);
        Place {
            units: OpenUnits {
                count: left.count,
                top: left.top,
                ..self.units
            },
            ranks: Ranks {
                top: rank_at(left.count, self.units.count, self.ranks),
                ..self.ranks
            },
            ..self
        }
    }
}

// FIRST, for streams of this edition.
pub fn first_as(edition: Edition, s: &[u8]) -> Result<Answer, Fault>
    ensures { reply_from no_place result ≡ first_of (layout_of edition) s.now }
{
    Ok(start_as(edition, s)?.into())
}

// FIRST.
pub fn first(s: &[u8]) -> Result<Answer, Fault>
    ensures { reply_from no_place result ≡ first_of (layout_for s.now) s.now }
{
    first_as(edition_of(s), s)
}

// GET_STREAM: the part of the lent stream that is the group, and beside a refusal the empty part at the front.
pub fn get_stream(p: Place, s: &[u8]) -> &[u8]
    ensures bytes { result.now ≡ bytes_of (part_at p s.now) s.now }
    ensures stands { (result.ref_ptr.0 ≡ s.entry.ref_ptr.0) × (result.ref_ptr.1 ≡ s.entry.ref_ptr.1 + (part_at p s.now).start) }
{
    match p.get_stream_place(s) {
        Ok(_) => &s[p.last.start..p.last.end],
        Err(_) => &s[0..0],
    }
}
