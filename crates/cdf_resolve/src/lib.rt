// The import desk: the entity keys of an E/R group resolved to the templates that they mean, in two passes over its units.
#![tactic(auto)]

ghost use Rattle.std.specs.Prelude.{◌≡◌, ◌+◌, true, length};
ghost use Rattle.cdf_unit_prefix.specs.Layout.{layout_for};
ghost use Rattle.cdf_unit_list.specs.Units.{listing};
ghost use Rattle.cdf_grammar.specs.Claims.{Accepted};
ghost use Rattle.cdf_lookup_spec.specs.Find.{is_group};
ghost use Rattle.cdf_resolve_spec.specs.Resolve.{resolved_of, list_after};
ghost use Rattle.cdf_resolve_spec.specs.Pass.{alike_at, add_of};
ghost use Rattle.cdf_resolve_tally.specs.Told.{answer_of};
ghost use Rattle.cdf_resolve.specs.Holding.{Lies, Within, rank_in, Ready, Held, Tells, OwnerLies, Meets, Passed};

use cdf_check::check;
use cdf_lookup_search::is_group;
use cdf_reader::{first as first_unit, first_as};
use cdf_refusal::{Fault, Refusal};
use cdf_resolve_spec::{Tally, Worst};
use cdf_resolve_tally::{doubled_at, lacking_at, put, told};
use cdf_unit_list::{Ranked, Unit};
use cdf_unit_own::row::NAME_BYTES;
use cdf_unit_prefix::{edition_of, prefix};
use cdf_unit_table::{ENTITY_KEY, TEMPLATE, TEMPORARY_KEY};

// What is held of a template: where it starts, where its name ends, and its rank. The list of them is searched from the front: 256 at most, and no
// heap.
#[derive(Clone, Copy, Default)]
struct Template {
    start: usize,
    own: usize,
    rank: usize,
}

// Whether what starts there, and whose name ends there, has the number and the name of u. The four bytes are compared first.
fn alike(s: &[u8], start: usize, own: usize, u: Unit) -> bool
    requires { Within (layout_for s.now) (length s.now) start own × Within (layout_for s.now) (length s.now) u.start u.own }
    ensures { result ≡ alike_at (layout_for s.now) s.now u start own }
{
    let width = prefix(edition_of(s));
    let here = own + width;
    let there = u.own + width;
    &s[here..here + 4] == &s[there..there + 4]
        && &s[start + width..own] == &s[u.start + width..u.own]
}

// The rank of the first of these templates that has the number and the name of u.
fn find(s: &[u8], held: &[Template], u: Unit) -> Option<usize>
    requires { Lies (layout_for s.now) (length s.now) held.now × Within (layout_for s.now) (length s.now) u.start u.own }
    ensures { result ≡ rank_in (layout_for s.now) s.now u held.now }
{
    for t in held {
        if alike(s, t.start, t.own, u) {
            return Some(t.rank);
        }
    }
    None
}

// Holds a template, if there is room. Ready speaks of the list, the tally and the bytes at once; a struct would have to borrow all three.
fn hold(s: &[u8], t: Tally, held: &mut [Template; 256], owner: Ranked) -> Tally
    requires { Ready (layout_for s.now) (length s.now) t held.old
        × Within (layout_for s.now) (length s.now) owner.unit.start owner.unit.own }
    ensures { Held (layout_for s.now) s.now (λ p. add_of (layout_for s.now) s.now p owner) t held.old result held.new }
{
    if t.templates == 256 {
        return Tally {
            worst: Worst::Crowded,
            ..t
        };
    }
    let found = find(s, &held[..t.templates], owner.unit);
    held[t.templates] = Template {
        start: owner.unit.start,
        own: owner.unit.own,
        rank: owner.rank,
    };
    let more = Tally {
        templates: t.templates + 1,
        ..t
    };
    match found {
        None => more,
        Some(_) => Tally {
            worst: doubled_at(t.worst, owner.unit.start),
            ..more
        },
    }
}

// Tells the rank of the template that an entity key means, if one is held.
fn tell(s: &[u8], t: Tally, held: &[Template], list: &mut [u64], owner: Ranked) -> Tally
    requires { Ready (layout_for s.now) (length s.now) t held.now
        × Within (layout_for s.now) (length s.now) owner.unit.start owner.unit.own }
    ensures { Tells (layout_for s.now) s.now owner t held.now list.old result list.new }
{
    match find(s, &held[..t.templates], owner.unit) {
        None => Tally {
            worst: lacking_at(t.worst, owner.unit.start),
            ..t
        },
        Some(rank) => {
            put(list, t.count, rank);
            Tally {
                count: t.count + 1,
                ..t
            }
        }
    }
}

// One unit, with the id of the one behind it: where that is a temporary key, it is this one's.
fn meet(
    s: &[u8],
    t: Tally,
    held: &mut [Template; 256],
    list: &mut [u64],
    owner: Ranked,
    id: usize,
) -> Tally
    requires { Ready (layout_for s.now) (length s.now) t held.old × OwnerLies (layout_for s.now) (length s.now) id owner.unit }
    ensures { Meets (layout_for s.now) s.now owner id t held.old list.old result held.new list.new }
{
    if id != TEMPORARY_KEY {
        return t;
    }
    match owner.unit.id {
        TEMPLATE => hold(s, t, held, owner),
        ENTITY_KEY => tell(s, t, held, list, owner),
        _ => t,
    }
}

// Walks over the units of an accepted E/R group, each from the place that the step before it left, and tells ranks as far as the list has room.
fn pass(s: &[u8], list: &mut [u64]) -> Tally
    requires { Accepted (layout_for s.now) s.now × (is_group (listing (layout_for s.now) s.now).units ≡ true) }
    ensures { Passed (layout_for s.now) s.now list.old result list.new }
{
    let row = NAME_BYTES;
    let mut held = [Template::default(); 256];
    let edition = edition_of(s);
    let mut next = first_as(edition, s);
    let mut owner = Ranked::default();
    let mut t = Tally::default();
    while let Ok(a) = next {
        t = meet(s, t, &mut held, list, owner, a.handed.unit.id);
        owner = a.handed;
        next = a.place.advance(&row, edition, s);
    }
    t
}

// Resolves the entity keys of an accepted stream: a first pass decides, a second writes.
fn resolve_accepted(s: &[u8], list: &mut [u64]) -> Result<usize, Fault>
    requires { Accepted (layout_for s.now) s.now }
    ensures is { answer_of result ≡ resolved_of (layout_for s.now) s.now (length list.old) }
    ensures ranks { list.new ≡ list_after (layout_for s.now) s.now list.old }
{
    if !is_group(first_unit(s)) {
        return Err(Refusal::NotAdmitted.into());
    }
    let t = pass(s, &mut [0]);
    let count = told(t, list.len())?;
    pass(s, list);
    Ok(count)
}

// Resolves the entity keys with temporary keys of an E/R group, and writes the ranks of the templates that they mean, in stream order, at the
// list's front; tells how many. A refusal is one of the check's, of a root that is no E/R group, or one for templates or for room; it leaves the list
// as it is.
pub fn resolve(s: &[u8], list: &mut [u64]) -> Result<usize, Fault>
    ensures is { answer_of result ≡ resolved_of (layout_for s.now) s.now (length list.old) }
    ensures ranks { list.new ≡ list_after (layout_for s.now) s.now list.old }
{
    check(s)?;
    resolve_accepted(s, list)
}
