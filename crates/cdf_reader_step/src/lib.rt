// NEXT at a cursor, and any call: nothing to do here, then a place that does not fit, then what it does.
#![tactic(auto)]

ghost use Rattle.std.specs.Prelude.{◌≡◌, ◌||◌, ◌≤◌};
ghost use Rattle.cdf_unit_prefix.specs.Layout.{layout_of};
ghost use Rattle.cdf_reader_spec.specs.Place.{fits};
ghost use Rattle.cdf_reader_spec.specs.Ranking.{depth_at};
ghost use Rattle.cdf_reader_spec.specs.Calls.{next_of, call_of, is_start};
ghost use Rattle.cdf_reader_spec.specs.declared.Call.TheVariants.{Previous};
ghost use Rattle.cdf_reader_cursor.specs.Outcomes.{cursor_place, reply_from};
ghost use Rattle.cdf_reader_step.specs.Asked.{next_with};
ghost use Rattle.cdf_reader_step.specs.Depth.{depth_by};
ghost use Rattle.cdf_reader_step.specs.Kept.{cursor_kept, Again};

use cdf_reader_advance_by::{advance, advance_with};
use cdf_reader_cursor::{Cursor, Outcome, first_as, hand_out, pass};
use cdf_reader_fit::fits;
use cdf_reader_judges::Judges;
use cdf_reader_spec::Call;
use cdf_reader_use::{has_use, is_start};
use cdf_refusal::{Fault, Refusal};
use cdf_unit_list::Ranked;
use cdf_unit_own::row::NAME_BYTES;
use cdf_unit_prefix::Edition;

// Whether the place could belong to n bytes.
pub fn is_fit(c: Cursor, edition: Edition, n: usize) -> bool
    ensures { result ≡ fits (layout_of edition) n (cursor_place c) }
{
    fits(edition, n, c.position, c.units, c.last, c.fresh, c.ranks)
}

// Whether the call may go on with this place: a start with any, another call with one that fits.
fn is_ready(c: Cursor, edition: Edition, n: usize, call: Call) -> bool
    ensures { result ≡ (is_start call || fits (layout_of edition) n (cursor_place c)) }
{
    is_start(call) || is_fit(c, edition, n)
}

// How deep the last unit of a place stands: it is the innermost by its start, or stands in that one.
pub fn last_depth(c: Cursor) -> usize
    ensures is { result ≡ depth_by c }
    ensures placed { (1 ≤ c.units.count) × (c.units.count ≤ 5) → result ≡ depth_at (cursor_place c) }
{
    if c.units.top.start == c.last.start {
        return c.units.count;
    }
    c.units.count.saturating_add(1)
}

// NEXT by any judge: nothing to do here, a place that does not fit, then the step.
#[inline]
pub fn next_with<J: Judges>(by: &J, c: Cursor, edition: Edition, s: &[u8]) -> Result<Outcome, Fault>
    ensures { reply_from c result ≡ next_with (J.finds by.now (layout_of edition)) (layout_of edition) s.now (cursor_place c) }
{
    if c.units.count == 0 {
        return Err(Refusal::NoUse.at(0));
    }
    if !is_fit(c, edition, s.len()) {
        return Err(Refusal::Place.at(0));
    }
    advance_with(by, c, edition, s)
}

// NEXT alone, for callers that need no other call: it is faster without the tests for which call it is.
pub fn next_at(c: Cursor, edition: Edition, s: &[u8]) -> Result<Outcome, Fault>
    ensures { reply_from c result ≡ next_of (layout_of edition) s.now (cursor_place c) }
{
    next_with(&NAME_BYTES, c, edition, s)
}

// Any call. In this code a place is tested and a unit is read in one line, into which the compiler can put all of both.
pub fn call_at(c: Cursor, edition: Edition, call: Call, s: &[u8]) -> Result<Outcome, Fault>
    ensures is { reply_from (cursor_kept call c) result ≡ call_of (layout_of edition) s.now (cursor_place c) call }
    ensures again { call ≡ Previous → Again c result }
{
    if !has_use(call, c.units.count, c.fresh, c.last.id) {
        return Err(Refusal::NoUse.at(0));
    }
    if !is_ready(c, edition, s.len(), call) {
        return Err(Refusal::Place.at(0));
    }
    match call {
        Call::Start => first_as(edition, s),
        Call::Next => advance(c, &NAME_BYTES, edition, s),
        Call::Skip | Call::GetStream => Ok(pass(c)),
        Call::Previous => {
            let last = Ranked {
                unit: c.last,
                depth: last_depth(c),
                rank: c.ranks.last,
            };
            Ok(hand_out(last, c))
        }
    }
}
