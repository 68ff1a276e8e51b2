// A step at any cursor, as it is defined, and its tests and ranks: what NEXT does, without the test whether the place fits; where it cannot be
// done, a refusal of its own. The step itself stands in `cdf_reader_advance_by`.
#![tactic(auto)]

ghost use Rattle.std.specs.Prelude.{◌≡◌, cond, ◌&&◌, suc, leb, ltb};
ghost use Rattle.cdf_unit_table.specs.States.{opens};
ghost use Rattle.cdf_reader_advance.specs.Advancing.{is_inside};
ghost use Rattle.cdf_reader_advance.specs.Ranks.{rank_before, rank_from};

use cdf_reader_close::rank_at;
use cdf_reader_cursor::Cursor;
use cdf_unit_list::Open;
use cdf_unit_table::first_state;

// Whether the position lies inside a unit, and the unit in n bytes: what is left of the unit is then a part of them.
pub fn is_inside(o: Open, at: usize, n: usize) -> bool
    ensures { result ≡ is_inside n at o }
{
    (o.start < at) & ((at < o.end) & (o.end <= n))
}

// Whether the slots hold what is open behind a unit of this id, and the rank before it is below the position.
pub fn has_room(left: usize, id: usize, before: usize, at: usize) -> bool
    ensures { result ≡ (leb (cond (opens id) (suc left) left) 4 && ltb before at) }
{
    match first_state(id) {
        Some(_) => (left < 4) & (before < at),
        None => (left <= 4) & (before < at),
    }
}

// The rank before the next unit's, where so many units are left: of the outermost that closes, else of the last one.
pub fn rank_before(c: Cursor, left: usize) -> usize
    ensures { result ≡ rank_before c left }
{
    if c.units.count <= left {
        return c.ranks.last;
    }
    rank_at(left + 1, c.units.count, c.ranks)
}

// How the unit at the position ranks: after the outermost unit that closes there, else in the last unit, if that is the innermost by its
// start, and else after it. No rank comes after the highest.
pub fn next_rank(c: Cursor, left: usize, before: usize) -> usize
    ensures { result ≡ rank_from c left before }
{
    if before == usize::MAX {
        return before;
    }
    if (c.units.count <= left) && (c.last.start == c.units.top.start) {
        return 0;
    }
    before + 1
}
