// Whether the open units of a place hold, one to four of them, straight on the numbers that cross to C. A function for each count has its tests on the
// slots of an array; a loop over the count would look through slots that it does not reach.
#![tactic(auto)]

ghost use Rattle.std.specs.Prelude.{◌≡◌};
ghost use Rattle.cdf_unit_prefix.specs.Layout.{Layout, layout_of};
ghost use Rattle.cdf_reader_numbers.specs.Numbers.{place_from};
ghost use Rattle.cdf_reader_open_numbers.specs.Held.{held};

use cdf_reader_kinds::{is_fourfold, is_pair, is_triple};
use cdf_reader_numbers::open_of;
use cdf_reader_open::{is_outermost, is_past};
use cdf_unit_prefix::Edition;

// One open unit, in any layout.
pub fn holds_one(n: usize, most: usize, p: &[u64; 25]) -> bool
    ensures { (l : Layout) → result ≡ held l n most (place_from p.now) 1 }
{
    is_outermost(n, open_of(p[2], p[3], p[4])) & (p[20] as usize <= most)
}

// Two.
pub fn holds_two(edition: Edition, n: usize, most: usize, p: &[u64; 25]) -> bool
    ensures { result ≡ held (layout_of edition) n most (place_from p.now) 2 }
{
    if !is_pair(p[5] as usize, p[2] as usize) {
        return false;
    }
    let inner = is_past(edition, p[6] as usize, p[3] as usize) & (p[4] <= p[7]);
    let outer = (p[6] as usize == 0) & (p[7] as usize == n);
    (inner & outer) & ((p[20] as usize <= most) & (p[21] as usize <= most))
}

// Three.
pub fn holds_three(edition: Edition, n: usize, most: usize, p: &[u64; 25]) -> bool
    ensures { result ≡ held (layout_of edition) n most (place_from p.now) 3 }
{
    if !is_triple(p[5] as usize, p[8] as usize, p[2] as usize) {
        return false;
    }
    let inner = is_past(edition, p[9] as usize, p[3] as usize) & (p[4] <= p[10]);
    let middle = is_past(edition, p[6] as usize, p[9] as usize) & (p[10] <= p[7]);
    let outer = (p[6] as usize == 0) & (p[7] as usize == n);
    (inner & (middle & outer))
        & ((p[20] as usize <= most) & ((p[22] as usize <= most) & (p[21] as usize <= most)))
}

// Four.
pub fn holds_four(edition: Edition, n: usize, most: usize, p: &[u64; 25]) -> bool
    ensures { result ≡ held (layout_of edition) n most (place_from p.now) 4 }
{
    if !is_fourfold(p[5] as usize, p[8] as usize, p[11] as usize, p[2] as usize) {
        return false;
    }
    let inner = is_past(edition, p[12] as usize, p[3] as usize) & (p[4] <= p[13]);
    let third = is_past(edition, p[9] as usize, p[12] as usize) & (p[13] <= p[10]);
    let second = is_past(edition, p[6] as usize, p[9] as usize) & (p[10] <= p[7]);
    let outer = (p[6] as usize == 0) & (p[7] as usize == n);
    (inner & (third & (second & outer)))
        & ((p[20] as usize <= most)
            & ((p[23] as usize <= most) & ((p[22] as usize <= most) & (p[21] as usize <= most))))
}
