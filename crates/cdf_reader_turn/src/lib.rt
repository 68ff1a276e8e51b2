// What a step finds at any cursor, before anything is written: the judgement of a unit with its depth and rank, or a refusal. Each step is made
// of it: NEXT by a row or a table, and the calls that write the new place by themselves.
#![tactic(auto)]

ghost use Rattle.std.specs.Prelude.{◌≡◌};
ghost use Rattle.cdf_unit_prefix.specs.Layout.{layout_of};
ghost use Rattle.cdf_reader_cursor.specs.Outcomes.{cursor_place, reply_from};
ghost use Rattle.cdf_reader_advance.specs.Advancing.{advanced_with};
ghost use Rattle.cdf_reader_turn.specs.Turning.{turned};

use cdf_open_units::Left;
use cdf_reader_advance::{has_room, is_inside, next_rank, rank_before};
use cdf_reader_close::close;
use cdf_reader_cursor::Cursor;
use cdf_reader_judges::Judges;
use cdf_refusal::{Fault, Refusal};
use cdf_unit_list::{Open, Ranked, Unit};
use cdf_unit_prefix::Edition;

// No call tells this.
const NO_STEP: Fault = Fault {
    refusal: Refusal::NoStep,
    offset: 0,
};

// What a step finds: the unit to be handed out, in the innermost of the units left open, and that one's next state.
#[derive(Clone, Copy)]
pub struct Reading {
    pub left: Left<Open>,
    pub handed: Ranked,
    pub next: usize,
}

// Closes units and judges the one at the position.
#[inline]
pub fn turn<J: Judges>(by: &J, c: Cursor, edition: Edition, s: &[u8]) -> Result<Reading, Fault>
    ensures { reply_from c (turned c result) ≡ advanced_with (J.finds by.now (layout_of edition)) s.now (cursor_place c) }
{
    let at = c.position;
    let left = close(at, c.units);
    let Left { count, top: inner } = left;
    if count == 0 {
        return Err(Refusal::Ended.at(0));
    }
    if inner.end == at {
        return Err(Refusal::Incomplete.at(inner.start));
    }
    if !is_inside(inner, at, s.len()) {
        return Err(NO_STEP);
    }
    let found = match by.find(edition, inner.state, &s[at..inner.end]) {
        Ok(found) => found,
        Err(fault) => return Err(fault.refusal.at(at + fault.offset)),
    };
    let before = rank_before(c, count);
    if !has_room(count, found.id, before, at) {
        return Err(NO_STEP);
    }
    let unit = Unit {
        id: found.id,
        action: found.action,
        start: at,
        own: at + found.own,
        end: at + found.length,
    };
    let handed = Ranked {
        unit,
        depth: count + 1,
        rank: next_rank(c, count, before),
    };
    Ok(Reading {
        left,
        handed,
        next: found.state,
    })
}
