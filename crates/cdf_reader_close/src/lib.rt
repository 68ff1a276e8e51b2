// Closing the open units that end at a position.
#![tactic(auto)]

ghost use Rattle.std.specs.Prelude.{◌≡◌};
ghost use Rattle.cdf_reader_spec.specs.Slots.{no_open, no_ranks, open_units, opened};
ghost use Rattle.cdf_reader_spec.specs.Closing.{unclosed};
ghost use Rattle.cdf_reader_close.specs.Levels.{rank_at};

use cdf_open_units::{Left, OpenUnits};
use cdf_reader_spec::Ranks;
use cdf_unit_list::Open;
use cdf_unit_table::is_complete;

// No unit: zeros, under the name that contracts and proofs cite.
pub fn no_open() -> Open
    ensures { result ≡ no_open }
{
    Open::default()
}

// No ranks: zeros, likewise.
pub fn no_ranks() -> Ranks
    ensures { result ≡ no_ranks }
{
    Ranks::default()
}

// The rank of the unit at a level, 1 the outermost's, where so many are open.
pub fn rank_at(level: usize, count: usize, ranks: Ranks) -> usize
    ensures { result ≡ rank_at level count ranks }
{
    if level == count {
        return ranks.top;
    }
    match level {
        1 => ranks.r1,
        2 => ranks.r2,
        3 => ranks.r3,
        _ => 0,
    }
}

// Closes the complete units that end at the position, innermost first. How many these are, only closing them tells.
pub fn close(position: usize, units: OpenUnits<Open>) -> Left<Open>
    ensures { open_units result.count result.top units.o1 units.o2 units.o3 ≡ unclosed (opened units) position }
{
    let mut left = Left {
        count: units.count,
        top: units.top,
    };
    while (0 < left.count) && (left.top.end == position) && is_complete(left.top.state) {
        left = Left {
            count: left.count - 1,
            top: units.around(left.count).unwrap_or(no_open()),
        };
    }
    left
}
