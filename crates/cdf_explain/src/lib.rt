// Why a stream is refused: where the refused unit stands, and what could have stood there.
#![tactic(auto)]

ghost use Rattle.std.specs.Prelude.{◌≤◌, ◌≡◌, ◌↔◌, None};
ghost use Rattle.cdf_refusal.specs.Numbers.{number_of};
ghost use Rattle.cdf_unit_prefix.specs.Layout.{layout_for};
ghost use Rattle.cdf_reader_spec.specs.Slots.{opened};
ghost use Rattle.cdf_explain_spec.specs.Why.{why_of};
ghost use Rattle.cdf_explain.specs.Numbers.{numbers_of, numbers_told, explained_by};
ghost use Rattle.cdf_explain.specs.Parts.{level, unit_told, mays_at, choices_of, told_at};

use cdf_open_units::OpenUnits;
use cdf_reader::{Place, first_as};
use cdf_reader_close::{close, no_open};
use cdf_reader_cursor::no_cursor;
use cdf_refusal::{Fault, Refusal};
use cdf_unit_list::Open;
use cdf_unit_own::row::NAME_BYTES;
use cdf_unit_prefix::edition_of;
use cdf_unit_states::unit_of;
use cdf_unit_table::{IDS_END, STREAM, is_root_kind, state_after};

// An open unit: its id, and where it starts.
#[derive(Clone, Copy)]
pub struct OpenUnit {
    pub id: usize,
    pub start: usize,
}

impl From<Open> for OpenUnit {
    ghost from_gives = { λ o u. u ≡ unit_told o };

    fn from(open: Open) -> OpenUnit {
        OpenUnit {
            id: unit_of(open.state),
            start: open.start,
        }
    }
}

// The ids that may stand at a place: so many, rising, and zeros behind them, as C is given them; there is no heap for a list.
#[derive(Clone, Copy)]
pub struct Choices {
    pub count: usize,
    pub ids: [usize; 14],
}

// What is told of a refused stream: the check's number and offset; how many units are open where the refused unit stands, and these,
// the root first; and what the innermost of them admits there. Units that are not used are zeros.
// It has what C is given, entry by entry: so the refusal is its number, and the units and the ids have their counts beside them.
#[derive(Clone, Copy)]
pub struct Explained {
    pub number: usize,
    pub offset: usize,
    pub depth: usize,
    pub units: [OpenUnit; 4],
    pub choices: Choices,
}

// The unit at a level of so many open ones, from 1, the root: the innermost, or one around it; zeros where there is none.
fn at_level(k: usize, count: usize, top: Open, outer: Open) -> Open
    ensures { result ≡ level k count top outer }
{
    if count == k {
        return top;
    }
    if k < count {
        return outer;
    }
    no_open()
}

// Whether an id may stand in the innermost of so many open units, which is in this state; where none is open, as a root.
fn may_stand(count: usize, state: usize, id: usize) -> bool
    ensures { result ≡ mays_at count state id }
{
    if count == 0 {
        return is_root_kind(id);
    }
    state_after(state, id).is_some()
}

// The ids that may stand there.
fn admitted(count: usize, state: usize) -> Choices
    ensures { result ≡ choices_of count state }
{
    let mut choices = Choices {
        count: 0,
        ids: [0; 14],
    };
    for id in STREAM..IDS_END {
        if may_stand(count, state, id) {
            choices.ids[choices.count] = id;
            choices.count += 1;
        }
    }
    choices
}

// The answer where these units are open, once those that are complete and end there are closed.
fn tell(fault: Fault, units: OpenUnits<Open>) -> Explained
    requires { units.count ≤ 4 }
    ensures { numbers_of result ≡ told_at (number_of fault.refusal) fault.offset (opened units) }
{
    let OpenUnits {
        count,
        top,
        o1,
        o2,
        o3,
    } = units;
    let root = OpenUnit::from(at_level(1, count, top, o1));
    let second = OpenUnit::from(at_level(2, count, top, o2));
    let third = OpenUnit::from(at_level(3, count, top, o3));
    let fourth = OpenUnit::from(at_level(4, count, top, o3));
    Explained {
        number: fault.refusal.number(),
        offset: fault.offset,
        depth: count,
        units: [root, second, third, fourth],
        choices: admitted(count, top.state),
    }
}

// Explains s, a stream or any other bytes: a start and nexts up to the first refusal, which is what the loop ends with. None for an accepted stream.
pub fn explain(s: &[u8]) -> Option<Explained>
    ensures is { numbers_told result ≡ explained_by (why_of (layout_for s.now) s.now) }
    ensures accepted { (result ≡ None) ↔ ((why_of (layout_for s.now) s.now).number ≡ 0) }
{
    let row = NAME_BYTES;
    let edition = edition_of(s);
    let mut place = Place::from(no_cursor());
    let mut next = first_as(edition, s);
    loop {
        match next {
            Ok(a) => {
                place = a.place;
                next = place.advance(&row, edition, s);
            }
            Err(fault) => {
                return match fault.refusal {
                    Refusal::Ended => None,
                    _ => {
                        let left = close(place.position, place.units);
                        let units = OpenUnits {
                            count: left.count,
                            top: left.top,
                            ..place.units
                        };
                        Some(tell(fault, units))
                    }
                };
            }
        }
    }
}
