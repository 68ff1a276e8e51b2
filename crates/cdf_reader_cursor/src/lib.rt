// Where a reader is, and the answers that its calls give once it is known what they do. A method stands in the crate of its struct,
// and the reader's calls are methods of its place; so what they are made of works on a cursor, which has the same parts.
#![tactic(auto)]

ghost use Rattle.std.specs.Prelude.{◌≡◌, []};
ghost use Rattle.cdf_unit_judge.specs.Answers.{judged};
ghost use Rattle.cdf_unit_list.specs.Stack.{entered};
ghost use Rattle.cdf_unit_prefix.specs.Layout.{layout_of};
ghost use Rattle.cdf_reader_spec.specs.Calls.{empty_place, stepped, move_to, passed, first_of};
ghost use Rattle.cdf_reader_cursor.specs.Outcomes.{cursor_place, outcome_reply, reply_from, no_cursor, handing, moving};

use cdf_open_units::OpenUnits;
use cdf_reader_spec::Ranks;
use cdf_refusal::Fault;
use cdf_unit_judge::{Admitted, judge_root};
use cdf_unit_list::{Open, Ranked, Unit};
use cdf_unit_prefix::Edition;
use cdf_unit_table::{first_state, skipped_state};

// The parts of a reader's place.
#[derive(Clone, Copy, Default)]
pub struct Cursor {
    pub position: usize,
    pub units: OpenUnits<Open>,
    pub last: Unit,
    pub fresh: bool,
    pub ranks: Ranks,
}

// What a call that succeeds answers, with the cursor that it leads to.
#[derive(Clone, Copy)]
pub struct Outcome {
    pub handed: Ranked,
    pub cursor: Cursor,
}

// The cursor of the empty place, all zeros, under the name that contracts and proofs cite.
pub fn no_cursor() -> Cursor
    ensures { result ≡ no_cursor }
{
    Cursor::default()
}

// Success with a unit.
pub fn hand_out(handed: Ranked, cursor: Cursor) -> Outcome
    ensures { result ≡ handing handed cursor }
{
    Outcome { handed, cursor }
}

// Success without a unit.
pub fn moved(cursor: Cursor) -> Outcome
    ensures { result ≡ moving cursor }
{
    hand_out(Ranked::default(), cursor)
}

// What SKIP and GET_STREAM do: past the last unit, which stays open and is skipped.
pub fn pass(c: Cursor) -> Outcome
    ensures { outcome_reply result ≡ move_to (passed (cursor_place c)) }
{
    moved(Cursor {
        position: c.last.end,
        units: OpenUnits {
            top: Open {
                state: skipped_state(c.units.top.state),
                ..c.units.top
            },
            ..c.units
        },
        fresh: false,
        ..c
    })
}

// A start, once the root is judged: it is opened, if it admits others.
pub fn begun(found: Result<Admitted, Fault>) -> Result<Outcome, Fault>
    ensures { reply_from no_cursor result ≡ stepped empty_place (entered 0 (λ state. []) (judged found)) }
{
    let root = found?;
    let unit = Unit {
        id: root.id,
        action: root.action,
        start: 0,
        own: root.own,
        end: root.length,
    };
    let handed = Ranked {
        unit,
        depth: 0,
        rank: 0,
    };
    let behind = Cursor {
        position: unit.end,
        last: unit,
        ..no_cursor()
    };
    let Some(state) = first_state(unit.id) else {
        return Ok(hand_out(handed, behind));
    };
    let opened = Cursor {
        position: unit.own,
        units: OpenUnits {
            count: 1,
            top: Open {
                state,
                start: 0,
                end: unit.end,
            },
            ..behind.units
        },
        fresh: true,
        ..behind
    };
    Ok(hand_out(Ranked { depth: 1, ..handed }, opened))
}

// The start of a stream of this edition: the root's rules, 3 to 9.
pub fn first_as(edition: Edition, s: &[u8]) -> Result<Outcome, Fault>
    ensures { reply_from no_cursor result ≡ first_of (layout_of edition) s.now }
{
    begun(judge_root(edition, s))
}
