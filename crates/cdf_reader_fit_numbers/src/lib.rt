// Whether a place could belong to some bytes, straight on the numbers that cross to C: only those are read that the count reaches.
#![tactic(auto)]

ghost use Rattle.std.specs.Prelude.{◌≡◌};
ghost use Rattle.cdf_unit_prefix.specs.Layout.{layout_of};
ghost use Rattle.cdf_reader_spec.specs.Place.{fits};
ghost use Rattle.cdf_reader.specs.View.{view};
ghost use Rattle.cdf_reader_numbers.specs.Numbers.{place_from};
ghost use Rattle.cdf_reader_open_numbers.specs.Held.{held, lasts};

use cdf_reader_fit::most_rank;
use cdf_reader_last::{is_bounded, is_skippable};
use cdf_reader_numbers::{last_of, open_of};
use cdf_reader_open::is_past;
use cdf_reader_open_numbers::{holds_four, holds_one, holds_three, holds_two};
use cdf_unit_prefix::Edition;

// So many as the count says. `fits` of the struct stands beside this: `cdf_next` is quicker by the numbers.
fn holds(edition: Edition, n: usize, most: usize, p: &[u64; 25]) -> bool
    ensures { result ≡ held (layout_of edition) n most (place_from p.now) (place_from p.now).units.count }
{
    match p[1] {
        1 => holds_one(n, most, p),
        2 => holds_two(edition, n, most, p),
        3 => holds_three(edition, n, most, p),
        4 => holds_four(edition, n, most, p),
        _ => false,
    }
}

// What is asked of the last unit: where it may be skipped, that it is the innermost and was just entered; its bounds only where it may not.
fn is_last(edition: Edition, n: usize, p: &[u64; 25]) -> bool
    ensures { result ≡ lasts (layout_of edition) n (place_from p.now) }
{
    if p[19] == 0 {
        return is_bounded(edition, n, last_of(p));
    }
    is_skippable(true, p[0] as usize, open_of(p[2], p[3], p[4]), last_of(p))
}

// Whether the place that these numbers are could belong to n bytes of this edition.
pub fn fits_at(edition: Edition, n: usize, p: &[u64; 25]) -> bool
    ensures { result ≡ fits (layout_of edition) n (view (place_from p.now)) }
{
    let position = p[0] as usize;
    if !is_past(edition, p[3] as usize, position) {
        return false;
    }
    if (p[4] as usize) < position {
        return false;
    }
    if !is_last(edition, n, p) {
        return false;
    }
    let most = most_rank(edition, position);
    if most < p[24] as usize {
        return false;
    }
    holds(edition, n, most, p)
}
