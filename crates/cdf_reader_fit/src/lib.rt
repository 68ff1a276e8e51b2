// Whether a reader's place could belong to some bytes. The place is taken by its parts, which the reader's struct holds.
#![tactic(auto)]

ghost use Rattle.std.specs.Prelude.{◌≡◌, ◌∷◌, ◌*◌, ◌/◌, leb};
ghost use Rattle.cdf_unit_prefix.specs.Layout.{layout_of, prefix_of};
ghost use Rattle.cdf_reader_spec.specs.Place.{every, fits};
ghost use Rattle.cdf_reader_spec.specs.Slots.{opened, open_ranks, place_of};
ghost use Rattle.cdf_reader_spec.specs.Tests.{chain};

use cdf_open_units::OpenUnits;
use cdf_reader_last::{is_bounded, is_skippable};
use cdf_reader_open::{is_outermost, is_past, is_under};
use cdf_reader_spec::Ranks;
use cdf_unit_list::{Open, Unit};
use cdf_unit_prefix::Edition;

// Whether these open units lie in one another and span n bytes. A test by the count: a loop would look through slots that it does not reach.
pub fn is_chain(edition: Edition, n: usize, units: OpenUnits<Open>) -> bool
    ensures { result ≡ chain (layout_of edition) n (opened units) }
{
    let OpenUnits {
        count,
        top,
        o1,
        o2,
        o3,
    } = units;
    if count == 1 {
        return is_outermost(n, top);
    }
    if !is_outermost(n, o1) {
        return false;
    }
    if count == 2 {
        return is_under(edition, o1, top);
    }
    if !is_under(edition, o1, o2) {
        return false;
    }
    if count == 3 {
        return is_under(edition, o2, top);
    }
    if !is_under(edition, o2, o3) {
        return false;
    }
    if count == 4 {
        return is_under(edition, o3, top);
    }
    false
}

// The highest rank at a position. A division by a constant, in a branch for each edition: a product with a caller's number may overflow.
pub fn most_rank(edition: Edition, position: usize) -> usize
    ensures { result ≡ position / prefix_of (layout_of edition) }
{
    match edition {
        Edition::First => position / 6,
        Edition::Second => position / 8,
    }
}

// Whether the last unit's rank and those of so many open units may stand at this position. Ranks that the count does not reach are not asked.
pub fn is_ranked(edition: Edition, position: usize, count: usize, ranks: Ranks) -> bool
    ensures { result ≡ every (λ k. leb (k * prefix_of (layout_of edition)) position) (ranks.last ∷ open_ranks count ranks) }
{
    let most = most_rank(edition, position);
    (ranks.last <= most)
        & (((count < 1) | (ranks.top <= most))
            & (((count < 4) | (ranks.r3 <= most))
                & (((count < 3) | (ranks.r2 <= most)) & ((count < 2) | (ranks.r1 <= most)))))
}

// Whether a place with these parts could belong to n bytes: these units are open, and `last`, the last unit handed out, may still be
// skipped if `fresh`; `ranks` are theirs.
pub fn fits(
    edition: Edition,
    n: usize,
    position: usize,
    units: OpenUnits<Open>,
    last: Unit,
    fresh: bool,
    ranks: Ranks,
) -> bool
    ensures { result ≡ fits (layout_of edition) n
        (place_of position units.count units.top units.o1 units.o2 units.o3 last fresh ranks) }
{
    let top = units.top;
    if !is_past(edition, top.start, position) {
        return false;
    }
    if top.end < position {
        return false;
    }
    if !is_bounded(edition, n, last) {
        return false;
    }
    if !is_skippable(fresh, position, top, last) {
        return false;
    }
    if !is_ranked(edition, position, units.count, ranks) {
        return false;
    }
    is_chain(edition, n, units)
}
