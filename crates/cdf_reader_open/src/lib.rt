// The tests of open units, of one or two at a time: what the fit test of a whole place (cdf_reader_fit) asks.
#![tactic(auto)]

ghost use Rattle.std.specs.Prelude.{◌≡◌, ◌+◌, leb};
ghost use Rattle.cdf_unit_table.specs.States.{unit_of, root_kind, admits_kind};
ghost use Rattle.cdf_unit_prefix.specs.Layout.{layout_of, prefix_of};
ghost use Rattle.cdf_reader_spec.specs.Tests.{spans, under};

use cdf_unit_list::Open;
use cdf_unit_prefix::{Edition, prefix};
use cdf_unit_table::{
    CALL_SKIPPED, ENTITY_NEW, ENTITY_SKIPPED, ER_NEW, ER_SKIPPED, FILE_SKIPPED, ORDERED_SKIPPED,
    RELATION_NEW, STREAM_NEW, STREAM_SKIPPED, TEMPLATE_NEW,
};

// Whether a unit in this state may be a root: an EDMM stream or a group.
pub fn is_root(state: usize) -> bool
    ensures { result ≡ root_kind (unit_of state) }
{
    (STREAM_NEW <= state) & (state <= FILE_SKIPPED)
}

// Whether a unit in the state `outer` admits, whatever it has had, the kind of one in the state `inner`: a stream groups and
// calls, an E/R group templates and relations, a relation entity keys.
pub fn nests(outer: usize, inner: usize) -> bool
    ensures { result ≡ admits_kind (unit_of outer) (unit_of inner) }
{
    if (ER_NEW <= outer) & (outer <= ER_SKIPPED) {
        return (TEMPLATE_NEW <= inner) & (inner <= ORDERED_SKIPPED);
    }
    if (STREAM_NEW <= outer) & (outer <= STREAM_SKIPPED) {
        return (ER_NEW <= inner) & (inner <= CALL_SKIPPED);
    }
    if (RELATION_NEW <= outer) & (outer <= ORDERED_SKIPPED) {
        return (ENTITY_NEW <= inner) & (inner <= ENTITY_SKIPPED);
    }
    false
}

// Whether b is a prefix further than a at least; no sum of a caller's numbers.
pub fn is_past(edition: Edition, a: usize, b: usize) -> bool
    ensures { result ≡ leb (a + prefix_of (layout_of edition)) b }
{
    let p = prefix(edition);
    (p <= b) && (a <= b - p)
}

// Whether the outermost unit spans n bytes and may be a root.
pub fn is_outermost(n: usize, o: Open) -> bool
    ensures { result ≡ spans n o }
{
    is_root(o.state) & ((o.start == 0) & (o.end == n))
}

// Whether the unit o lies in p, which admits its kind.
pub fn is_under(edition: Edition, p: Open, o: Open) -> bool
    ensures { result ≡ under (layout_of edition) p o }
{
    nests(p.state, o.state) && is_past(edition, p.start, o.start) && (o.end <= p.end)
}
