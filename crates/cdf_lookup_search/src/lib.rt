// The walk of the lookup: what one pass over the units of a stream tells and finds.
#![tactic(auto)]

ghost use Rattle.std.specs.Prelude.{ℕ, ◌+◌, ◌≤◌, ◌≡◌, List, length};
ghost use Rattle.cdf_unit_prefix.specs.Layout.{Layout, layout_of, layout_for, prefix_of};
ghost use Rattle.cdf_unit_list.specs.Units.{listing};
ghost use Rattle.cdf_reader_spec.specs.Calls.{first_of};
ghost use Rattle.cdf_reader.specs.View.{no_place, reply_from};
ghost use Rattle.cdf_lookup_spec.specs.Find.{reads, is_group};
ghost use Rattle.cdf_lookup_spec.specs.Told.{query_of};
ghost use Rattle.cdf_lookup_spec.specs.Search.{advance_of, outcome_of};
ghost use Rattle.cdf_lookup_search.specs.Over.{is_over};
ghost use Rattle.cdf_lookup_search.specs.Root.{group_root};
ghost use Rattle.cdf_lookup_search.specs.Placed.{Lies, Placed};
ghost use Rattle.cdf_lookup_search.specs.Walking.{walked_of, Tells, WalkedIn};

use cdf_lookup_spec::{Query, Search, Span};
use cdf_reader::{Answer, first_as};
use cdf_refusal::{Fault, Refusal};
use cdf_unit_list::Unit;
use cdf_unit_own::row::NAME_BYTES;
use cdf_unit_prefix::{Edition, edition_of, prefix};
use cdf_unit_table::{ER_GROUP, FIELD, TEMPLATE};

// What a walk has met: whether the root is an E/R group, and where the value stands, if it does.
#[derive(Clone, Copy, Debug, PartialEq, Eq)]
pub struct Walked {
    pub group: bool,
    pub value: Option<Span>,
}

// What a walk over a refused stream tells: the check's refusal, and what it met before that.
#[derive(Clone, Copy, Debug, PartialEq, Eq)]
pub struct Broken {
    pub fault: Fault,
    pub met: Walked,
}

impl From<Broken> for Fault {
    ghost from_gives = { λ b f. f ≡ b.fault };

    fn from(broken: Broken) -> Fault {
        broken.fault
    }
}

// Whether a unit of s has this id, and between its prefix and the position these bytes.
fn holds(edition: Edition, s: &[u8], u: Unit, to: usize, id: usize, text: &[u8]) -> bool
    requires { (u.start + prefix_of (layout_of edition) ≤ to) × (to ≤ length s.now) }
    ensures { result ≡ reads (layout_of edition) s.now id text.now u to }
{
    u.id == id && &s[u.start + prefix(edition)..to] == text
}

// One more unit.
fn advance(edition: Edition, s: &[u8], state: Search, u: Unit, asked: Query) -> Search
    requires { Lies (layout_of edition) (length s.now) u }
    ensures { result ≡ advance_of (layout_of edition) s.now (query_of asked.entry) state u }
{
    match state {
        Search::Seeking => {
            if holds(edition, s, u, u.own, TEMPLATE, asked.template) {
                return Search::Named(u.end);
            }
            Search::Seeking
        }
        Search::Named(end) => {
            if !holds(edition, s, u, u.end, asked.key_id, asked.key) {
                return Search::Seeking;
            }
            Search::Inside(end)
        }
        Search::Inside(end) => {
            if u.start >= end {
                return Search::Over(None);
            }
            if holds(edition, s, u, u.own, FIELD, asked.field) {
                return Search::Over(Some(Span {
                    start: u.own,
                    end: u.end,
                }));
            }
            Search::Inside(end)
        }
        Search::Over(value) => Search::Over(value),
    }
}

// What a search has found once no unit is left.
fn outcome(state: Search) -> Option<Span>
    ensures { result ≡ outcome_of state }
{
    match state {
        Search::Seeking | Search::Named(_) | Search::Inside(_) => None,
        Search::Over(value) => value,
    }
}

// Whether no further unit matters.
fn is_over(state: Search) -> bool
    ensures { result ≡ is_over state }
{
    matches!(state, Search::Over(_))
}

// Whether a start hands out the root of an E/R group.
pub fn is_group(root: Result<Answer, Fault>) -> bool
    ensures is { result ≡ group_root root }
    ensures listed { (l : Layout) → (s : List ℕ) → reply_from no_place root ≡ first_of l s → result ≡ is_group (listing l s).units }
{
    match root {
        Ok(a) => a.handed.unit.id == ER_GROUP,
        Err(_) => false,
    }
}

// Walks over s to its end, a start and nexts until one hands out no unit: what the check says of s, its root, and what a search finds. The refusal
// that ends the loop is what is told.
pub fn walk(s: &[u8], asked: Query) -> Result<Walked, Broken>
    ensures is { Tells result (walked_of (layout_for s.now) s.now (query_of asked.entry)) }
    ensures placed { WalkedIn (length s.now) result }
{
    let row = NAME_BYTES;
    let edition = edition_of(s);
    let mut next = first_as(edition, s);
    let group = is_group(next);
    let mut state = Search::Seeking;
    loop {
        match next {
            Ok(a) => {
                if !is_over(state) {
                    state = advance(edition, s, state, a.handed.unit, asked);
                }
                next = a.place.advance(&row, edition, s);
            }
            Err(fault) => {
                let met = Walked {
                    group,
                    value: outcome(state),
                };
                return match fault.refusal {
                    Refusal::Ended => Ok(met),
                    _ => Err(Broken { fault, met }),
                };
            }
        }
    }
}
