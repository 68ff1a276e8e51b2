// A step straight on the numbers of a place, as they cross to C: what NEXT does, without the test whether the place fits. It writes what
// changes.
#![tactic(auto)]

ghost use Rattle.std.specs.Prelude.{◌≡◌, [], ◌∷◌};
ghost use Rattle.cdf_unit_prefix.specs.Layout.{layout_of};
ghost use Rattle.cdf_reader_cursor.specs.Entering.{inside, entering};
ghost use Rattle.cdf_reader.specs.Cursors.{cursor_of, place_with};
ghost use Rattle.cdf_reader_numbers.specs.Numbers.{place_from, numbers_of};
ghost use Rattle.cdf_reader_step_numbers.specs.Numbered.{Stepped, step_due};

use cdf_open_units::{Left, OpenUnits};
use cdf_reader::Place;
use cdf_reader_close::rank_at;
use cdf_reader_numbers::{place_from, write_place};
use cdf_reader_spec::Ranks;
use cdf_reader_turn::turn;
use cdf_unit_list::{Open, Ranked};
use cdf_unit_own::Published;
use cdf_unit_prefix::Edition;
use cdf_unit_table::first_state;

// Writes an answer that tells a refusal. This and `hand` write by themselves: by the one `write_answer` of the other calls `cdf_next` takes 1 to 3 % more
// instructions.
fn refuse(offset: usize, a: &mut [u64; 10])
    ensures { a.new ≡ (offset ∷ 0 ∷ 0 ∷ 0 ∷ 0 ∷ 0 ∷ 0 ∷ 0 ∷ 0 ∷ 0 ∷ []) }
{
    *a = [offset as u64, 0, 0, 0, 0, 0, 0, 0, 0, 0];
}

// Writes an answer that hands out a unit.
fn hand(h: Ranked, a: &mut [u64; 10])
    ensures { a.new ≡ (0 ∷ h.unit.id ∷ h.unit.action ∷ h.unit.start ∷ h.unit.own ∷ h.unit.end ∷ 0 ∷ 0 ∷ h.depth ∷ h.rank ∷ []) }
{
    *a = [
        0,
        h.unit.id as u64,
        h.unit.action as u64,
        h.unit.start as u64,
        h.unit.own as u64,
        h.unit.end as u64,
        0,
        0,
        h.depth as u64,
        h.rank as u64,
    ];
}

// Writes the place in a unit that admits others and is in its first state: the innermost of these units, whatever stood there, and so of the ranks.
fn write_inside(
    handed: Ranked,
    first: usize,
    units: OpenUnits<Open>,
    ranks: Ranks,
    a: &mut [u64; 25],
)
    ensures { a.new
        ≡ numbers_of (place_with (inside handed first units.count units.o1 units.o2 units.o3 ranks.r1 ranks.r2 ranks.r3)) }
{
    let last = handed.unit;
    let place = Place {
        position: last.own,
        units: OpenUnits {
            top: Open {
                state: first,
                start: last.start,
                end: last.end,
            },
            ..units
        },
        last,
        fresh: true,
        ranks: Ranks {
            top: handed.rank,
            last: handed.rank,
            ..ranks
        },
    };
    write_place(place, a);
}

// Writes the place behind a unit that is handed out in the innermost of the units left open. The place is read here again, and in each
// branch the numbers that stay are those just read: the compiler then leaves out to write them.
// A struct written back costs `cdf_next` its speed.
fn enter(left: Left<Open>, handed: Ranked, next: usize, a: &mut [u64; 25])
    ensures { a.new ≡ numbers_of (place_with (entering (cursor_of (place_from a.old)) left.count left.top handed next).cursor) }
{
    let Left { count, top } = left;
    let p = place_from(a);
    let last = handed.unit;
    let old = p.ranks;
    let outer = Open { state: next, ..top };
    let around = rank_at(count, p.units.count, old);
    let Some(first) = first_state(last.id) else {
        let behind = Place {
            position: last.end,
            units: OpenUnits {
                count,
                top: outer,
                ..p.units
            },
            last,
            fresh: false,
            ranks: Ranks {
                top: around,
                last: handed.rank,
                ..old
            },
            ..p
        };
        write_place(behind, a);
        return;
    };
    let units = p.units;
    match count {
        1 => write_inside(
            handed,
            first,
            OpenUnits {
                count: 2,
                o1: outer,
                ..units
            },
            Ranks { r1: around, ..old },
            a,
        ),
        2 => write_inside(
            handed,
            first,
            OpenUnits {
                count: 3,
                o2: outer,
                ..units
            },
            Ranks { r2: around, ..old },
            a,
        ),
        _ => write_inside(
            handed,
            first,
            OpenUnits {
                count: 4,
                o3: outer,
                ..units
            },
            Ranks { r3: around, ..old },
            a,
        ),
    }
}

// A step at any numbers: the number; the answer's numbers are written always, the place's beside 0 alone.
pub fn step_at(edition: Edition, s: &[u8], place: &mut [u64; 25], answer: &mut [u64; 10]) -> u64
    ensures { Stepped (step_due (layout_of edition) s.now place.old)
        place.old result place.new answer.new }
{
    match turn(&Published, place_from(place).cursor(), edition, s) {
        Err(fault) => {
            refuse(fault.offset, answer);
            fault.refusal.number() as u64
        }
        Ok(found) => {
            enter(found.left, found.handed, found.next, place);
            hand(found.handed, answer);
            0
        }
    }
}
