// The recursive check of a stream, and of a unit one level down.
#![tactic(auto)]

ghost use Rattle.std.specs.Prelude.{◌≡◌, Bool, ◌↔◌, ℕ, ◌+◌, ◌≤◌, length, Ok};
ghost use Rattle.cdf_unit_prefix.specs.Layout.{layout_of, layout_for};
ghost use Rattle.cdf_unit_data.specs.Standing.{name_row};
ghost use Rattle.cdf_unit_judge.specs.Judge.{judge_of};
ghost use Rattle.cdf_unit_judge.specs.Answers.{judged};
ghost use Rattle.cdf_unit_list.specs.Units.{listing, listing_in};
ghost use Rattle.cdf_unit_list.specs.Check.{check_of, check_in};
ghost use Rattle.cdf_grammar.specs.Trees.{Forest, units};
ghost use Rattle.cdf_grammar.specs.Encoding.{Stream};
ghost use Rattle.cdf_check.specs.Answers.{Accepted, checked, checked_of, as_answer};
ghost use Rattle.cdf_check.specs.Walk.{UnitKnown, InsideKnown, checked_unit, inside_of, front};

use cdf_refusal::{Fault, Refusal};
use cdf_unit_judge::{Admitted, BodyFault, Grammar, judge, judge_body, judge_root};
use cdf_unit_own::Published;
use cdf_unit_own::row::NAME_BYTES;
use cdf_unit_prefix::{Edition, Header, edition_of, head, prefix};
use cdf_unit_table::{first_state, is_complete, state_after};

// Checks the unit s with this header, which is admitted where it stands: its action and own data, then what it holds. count
// units come before it, and `place` bytes. The row of name bytes is made once for a stream, and lent.
#[cycle(check_inside_check_unit)]
fn check_unit(
    row: &[u8; 256],
    edition: Edition,
    levels: usize,
    s: &[u8],
    header: Header,
    place: usize,
    count: usize,
) -> Result<usize, Fault>
    requires { UnitKnown (layout_of edition) levels s.now header.id place count × (row.now ≡ name_row) }
    ensures is { checked result ≡ checked_unit (layout_of edition) levels s.now header.id header.action place count }
    ensures few { (n : ℕ) → checked result ≡ Accepted n → n ≤ place + length s.now }
{
    let p = prefix(edition);
    let n = count + 1;
    let k = match judge_body(row, header.id, header.action, &s[p..]) {
        Ok(k) => k,
        Err(BodyFault::Action) => return Err(Refusal::Action.at(place)),
        Err(BodyFault::Data(k)) => return Err(Refusal::OwnData.at(place + p + k)),
    };
    let Some(first) = first_state(header.id) else {
        return Ok(n);
    };
    let m = check_inside(row, edition, levels, s, first, place, p + k, n)?;
    Ok(m)
}

// Checks each unit that the unit s holds, from body on, by their lengths; in `first` it has had nothing. count units come before that, and base
// bytes before s. A nested unit is handed on as the part of s that begins where it begins and ends where it ends.
#[cycle(check_inside_check_unit)]
fn check_inside(
    row: &[u8; 256],
    edition: Edition,
    levels: usize,
    s: &[u8],
    first: usize,
    base: usize,
    body: usize,
    count: usize,
) -> Result<usize, Fault>
    requires { InsideKnown levels s.now first base body count × (row.now ≡ name_row) }
    ensures is { checked result ≡ inside_of (layout_of edition) levels s.now first base body count }
    ensures few { (n : ℕ) → checked result ≡ Accepted n → n ≤ base + length s.now }
{
    let mut at = body;
    let mut state = first;
    let mut n = count;
    while at < s.len() {
        let place = base + at;
        match head(edition, false, &s[at..]) {
            Err(refusal) => return Err(refusal.at(place)),
            Ok(header) => {
                let Some(next) = state_after(state, header.id) else {
                    return Err(Refusal::NotAdmitted.at(place));
                };
                let e = at + header.length;
                let unit = &s[at..e];
                n = check_unit(row, edition, levels - 1, unit, header, place, n)?;
                at = e;
                state = next;
            }
        }
    }
    if is_complete(state) {
        Ok(n)
    } else {
        Err(Refusal::Incomplete.at(base))
    }
}

// Checks the unit at the front of s, which was judged so: as a stream's root, or as one nested in a unit in some state.
fn check_front(edition: Edition, found: Result<Admitted, Fault>, s: &[u8]) -> Result<usize, Fault>
    requires { (root : Bool) × (state : ℕ) × (judge_of (layout_of edition) root state s.now ≡ judged found) }
    ensures { checked result ≡ front (layout_of edition) s.now (judged found) }
{
    let unit = found?;
    let Some(fresh) = first_state(unit.id) else {
        return Ok(1);
    };
    let row = NAME_BYTES;
    check_inside(&row, edition, 5, &s[..unit.length], fresh, 0, unit.own, 1)
}

// Checks a whole stream of this edition.
pub fn check_as(edition: Edition, s: &[u8]) -> Result<usize, Fault>
    ensures answer { as_answer (checked result) ≡ check_of (layout_of edition) s.now }
    ensures is { checked result ≡ checked_of (listing (layout_of edition) s.now) }
    ensures exact { (n : ℕ) → (result ≡ Ok n) ↔ ((t : Forest) × Stream (layout_of edition) s.now t × (units t ≡ n)) }
{
    check_front(edition, judge_root(edition, s), s)
}

// Checks a whole stream.
pub fn check(s: &[u8]) -> Result<usize, Fault>
    ensures answer { as_answer (checked result) ≡ check_of (layout_for s.now) s.now }
    ensures is { checked result ≡ checked_of (listing (layout_for s.now) s.now) }
    ensures exact { (n : ℕ) →
        (result ≡ Ok n) ↔ ((t : Forest) × Stream (layout_for s.now) s.now t × (units t ≡ n)) }
{
    let edition = edition_of(s);
    check_as(edition, s)
}

// Checks the unit at the front of s, which is what a unit in this state has left.
pub fn check_nested(edition: Edition, state: usize, s: &[u8]) -> Result<usize, Fault>
    ensures answer { as_answer (checked result) ≡ check_in (layout_of edition) state s.now }
    ensures is { checked result ≡ checked_of (listing_in (layout_of edition) state s.now) }
{
    let found = judge(&Published, &Grammar, edition, false, state, s);
    check_front(edition, found, s)
}
