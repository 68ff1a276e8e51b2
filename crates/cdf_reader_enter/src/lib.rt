// Entering a unit at a cursor: the answer to a call that hands it out.
#![tactic(auto)]

ghost use Rattle.std.specs.Prelude.{◌≡◌};
ghost use Rattle.cdf_reader_cursor.specs.Outcomes.{handing};
ghost use Rattle.cdf_reader_cursor.specs.Entering.{inside, entering};

use cdf_open_units::{Left, OpenUnits};
use cdf_reader_close::rank_at;
use cdf_reader_cursor::{Cursor, Outcome, hand_out};
use cdf_reader_spec::Ranks;
use cdf_unit_list::{Open, Ranked};
use cdf_unit_table::first_state;

// Hands out a unit that admits others and is then in its first state: the innermost of these units, whatever stood there, and so of the ranks.
fn inside(handed: Ranked, first: usize, units: OpenUnits<Open>, ranks: Ranks) -> Outcome
    ensures { result
        ≡ handing handed (inside handed first units.count units.o1 units.o2 units.o3 ranks.r1 ranks.r2 ranks.r3) }
{
    let unit = handed.unit;
    let cursor = Cursor {
        position: unit.own,
        units: OpenUnits {
            top: Open {
                state: first,
                start: unit.start,
                end: unit.end,
            },
            ..units
        },
        last: unit,
        fresh: true,
        ranks: Ranks {
            top: handed.rank,
            last: handed.rank,
            ..ranks
        },
    };
    hand_out(handed, cursor)
}

// Hands out a unit that stands in the innermost of the units left open, whose state is then the next. A unit that admits others is opened.
pub fn enter(c: Cursor, left: Left<Open>, handed: Ranked, next: usize) -> Outcome
    ensures { result ≡ entering c left.count left.top handed next }
{
    let Left { count, top } = left;
    let unit = handed.unit;
    let old = c.ranks;
    let outer = Open { state: next, ..top };
    let around = rank_at(count, c.units.count, old);
    let Some(first) = first_state(unit.id) else {
        let cursor = Cursor {
            position: unit.end,
            units: OpenUnits {
                count,
                top: outer,
                ..c.units
            },
            last: unit,
            fresh: false,
            ranks: Ranks {
                top: around,
                last: handed.rank,
                ..old
            },
            ..c
        };
        return hand_out(handed, cursor);
    };
    let units = c.units;
    match count {
        1 => inside(
            handed,
            first,
            OpenUnits {
                count: 2,
                o1: outer,
                ..units
            },
            Ranks { r1: around, ..old },
        ),
        2 => inside(
            handed,
            first,
            OpenUnits {
                count: 3,
                o2: outer,
                ..units
            },
            Ranks { r2: around, ..old },
        ),
        _ => inside(
            handed,
            first,
            OpenUnits {
                count: 4,
                o3: outer,
                ..units
            },
            Ranks { r3: around, ..old },
        ),
    }
}
