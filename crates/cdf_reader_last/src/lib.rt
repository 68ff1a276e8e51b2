// The tests of a place's last unit: what the fit test of a whole place (cdf_reader_fit) asks.
#![tactic(auto)]

ghost use Rattle.std.specs.Prelude.{◌≡◌, not, ◌&&◌, ◌||◌, ◌+◌, leb};
ghost use Rattle.cdf_unit_prefix.specs.Layout.{layout_of, prefix_of};
ghost use Rattle.cdf_reader_spec.specs.Tests.{just_entered};

use cdf_reader_open::is_past;
use cdf_unit_list::{Open, Unit};
use cdf_unit_prefix::Edition;
use cdf_unit_table::first_state;

// Whether the bounds of the last unit stand in their order.
pub fn is_bounded(edition: Edition, n: usize, last: Unit) -> bool
    ensures { result ≡ (leb (last.start + prefix_of (layout_of edition)) last.own && (leb last.own last.end && leb last.end n)) }
{
    is_past(edition, last.start, last.own) && (last.own <= last.end) && (last.end <= n)
}

// Whether the last unit may be skipped only where it is the innermost, has had nothing and is just entered. A unit that admits none counts as in
// state 0, as is promised for any id.
pub fn is_skippable(fresh: bool, position: usize, top: Open, last: Unit) -> bool
    ensures { result ≡ (not fresh || just_entered position top last) }
{
    !fresh
        || ((first_state(last.id).unwrap_or(0) == top.state)
            && (last.start == top.start)
            && (last.end == top.end)
            && (position == last.own))
}
