// Whether a builder's place could belong to a buffer.
#![tactic(auto)]

ghost use Rattle.std.specs.Prelude.{◌≡◌};
ghost use Rattle.cdf_unit_prefix.specs.Layout.{layout_of};
ghost use Rattle.cdf_builder_spec.specs.Place.{fits};
ghost use Rattle.cdf_builder_spec.specs.Slots.{placed};
ghost use Rattle.cdf_builder_fit.specs.Linked.{outermost, inside, linked};

use cdf_builder_spec::{Begun, Parts};
use cdf_reader_open::{is_past, is_root, nests};
use cdf_unit_prefix::{Edition, limit};
use cdf_unit_states::is_unskipped;

// Whether the unit may be the outermost: the builder skips none.
fn is_outermost(o: Begun) -> bool
    ensures { result ≡ outermost o }
{
    is_unskipped(o.state) & (is_root(o.state) & (o.start == 0))
}

// Whether o may stand in p.
fn is_inside(edition: Edition, p: Begun, o: Begun) -> bool
    ensures { result ≡ inside (layout_of edition) p o }
{
    is_unskipped(o.state) & (nests(p.state, o.state) & is_past(edition, p.start, o.start))
}

// Whether so many open units stand in one another. Each count has an arm of its own, so that no unit is asked that it does not reach.
fn are_linked(edition: Edition, p: Parts) -> bool
    ensures { result ≡ linked (layout_of edition) (placed p).units }
{
    match p.units.count {
        1 => is_outermost(p.units.top),
        2 => is_inside(edition, p.units.o1, p.units.top) & is_outermost(p.units.o1),
        3 => is_inside(edition, p.units.o2, p.units.top)
            & (is_inside(edition, p.units.o1, p.units.o2) & is_outermost(p.units.o1)),
        4 => {
            is_inside(edition, p.units.o3, p.units.top)
                & (is_inside(edition, p.units.o2, p.units.o3)
                    & (is_inside(edition, p.units.o1, p.units.o2) & is_outermost(p.units.o1)))
        }
        _ => false,
    }
}

// Whether the place could belong to a buffer of n bytes.
pub fn is_fit(edition: Edition, n: usize, p: Parts) -> bool
    ensures { result ≡ fits (layout_of edition) n (placed p) }
{
    if n < p.written {
        return false;
    }
    if limit(edition) < p.written {
        return false;
    }
    if !is_past(edition, p.units.top.start, p.written) {
        return false;
    }
    are_linked(edition, p)
}
