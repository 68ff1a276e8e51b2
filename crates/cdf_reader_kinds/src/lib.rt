// Which states open units may have together, by how many units are open: the tests of kinds that the fit test of a whole place asks, each
// in one function of few branches: a loop would look through slots that the count does not reach.
#![tactic(auto)]

ghost use Rattle.std.specs.Prelude.{◌≡◌, ◌&&◌};
ghost use Rattle.cdf_reader_kinds.specs.Kinds.{may_root, may_hold};

use cdf_unit_table::{
    CALL_SKIPPED, ENTITY_NEW, ENTITY_SKIPPED, ER_NEW, ER_SKIPPED, ORDERED_SKIPPED, RELATION_NEW,
    STREAM_NEW, STREAM_SKIPPED, TEMPLATE_NEW,
};

// Whether a root in the first state admits the kind of a unit in the second: a group templates and relations, a stream groups and calls.
pub fn is_pair(a: usize, b: usize) -> bool
    ensures { result ≡ (may_hold a b && may_root a) }
{
    if (ER_NEW <= a) & (a <= ER_SKIPPED) {
        return (TEMPLATE_NEW <= b) & (b <= ORDERED_SKIPPED);
    }
    ((STREAM_NEW <= a) & (a <= STREAM_SKIPPED)) & ((ER_NEW <= b) & (b <= CALL_SKIPPED))
}

// The same of three, the root's first: a group in a stream with what it admits, or a relation in a group with an entity key.
pub fn is_triple(a: usize, b: usize, c: usize) -> bool
    ensures { result ≡ (may_hold b c && (may_hold a b && may_root a)) }
{
    if (ER_NEW <= b) & (b <= ER_SKIPPED) {
        return ((STREAM_NEW <= a) & (a <= STREAM_SKIPPED))
            & ((TEMPLATE_NEW <= c) & (c <= ORDERED_SKIPPED));
    }
    ((ER_NEW <= a) & (a <= ER_SKIPPED))
        & (((RELATION_NEW <= b) & (b <= ORDERED_SKIPPED))
            & ((ENTITY_NEW <= c) & (c <= ENTITY_SKIPPED)))
}

// Of four: a stream, a group, a relation and an entity key.
pub fn is_fourfold(a: usize, b: usize, c: usize, d: usize) -> bool
    ensures { result ≡ (may_hold c d && (may_hold b c && (may_hold a b && may_root a))) }
{
    ((STREAM_NEW <= a) & (a <= STREAM_SKIPPED))
        & (((ER_NEW <= b) & (b <= ER_SKIPPED))
            & (((RELATION_NEW <= c) & (c <= ORDERED_SKIPPED))
                & ((ENTITY_NEW <= d) & (d <= ENTITY_SKIPPED))))
}
