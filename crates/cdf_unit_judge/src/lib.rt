// The rules 3 to 9 for the unit at the front of what the enclosing unit has left.
#![tactic(auto)]

ghost use Rattle.std.specs.Prelude.{◌≡◌, true, ℕ, ◌+◌, ◌^◌, ◌<◌};
ghost use Rattle.cdf_unit_table.specs.States.{admit, some_state};
ghost use Rattle.cdf_unit_prefix.specs.Layout.{layout_of};
ghost use Rattle.cdf_unit_judge.specs.Short.{Short};
ghost use Rattle.cdf_unit_judge.specs.Judge.{body_by, found_by, judge_by, judge_of};
ghost use Rattle.cdf_unit_judge.specs.Answers.{bodied, judged, byte_of, fault_of, told_at, refusal_of};

use cdf_refusal::{Fault, Refusal};
use cdf_unit_own::{NameRow, own_data};
use cdf_unit_prefix::{Edition, Header, head, prefix};
use cdf_unit_table::{NONE, action_allowed, first_state, is_root_kind, state_after};

// Rules 8 and 9: the action is not allowed, or this byte of the own data is the first that breaks its rule.
#[derive(Clone, Copy)]
pub enum BodyFault {
    Action,
    Data(usize),
}

impl BodyFault {
    // The fault of a unit that starts at the one offset and whose prefix ends at the other.
    pub fn told(self, start: usize, body: usize) -> Fault
        ensures is { result ≡ told_at start body self }
        ensures near { body + byte_of self < 2 ^ 64 → result ≡ fault_of start body self }
    {
        match self {
            BodyFault::Action => Fault {
                refusal: Refusal::Action,
                offset: start,
            },
            BodyFault::Data(k) => Fault {
                refusal: Refusal::OwnData,
                offset: body.saturating_add(k),
            },
        }
    }
}

// Where only the rule counts that is broken.
impl From<BodyFault> for Refusal {
    ghost from_gives = { λ f r. r ≡ refusal_of f };

    fn from(fault: BodyFault) -> Refusal {
        match fault {
            BodyFault::Action => Refusal::Action,
            BodyFault::Data(_) => Refusal::OwnData,
        }
    }
}

// A unit that keeps the rules 3 to 9: lengths count from its start, and `state` is the enclosing unit's once it has had this one.
// Nothing encloses a root: for that, `state` is its own.
#[derive(Clone, Copy)]
pub struct Admitted {
    pub id: usize,
    pub action: usize,
    pub own: usize,
    pub length: usize,
    pub state: usize,
}

// Rules 8 and 9, on the bytes after the prefix: how many bytes the name or the fixed numbers take.
pub fn judge_body<R: NameRow>(
    row: &R,
    id: usize,
    action: usize,
    s: &[u8],
) -> Result<usize, BodyFault>
    ensures { bodied result ≡ body_by (R.bytes row.now) id action s.now }
{
    if !action_allowed(id, action) {
        return Err(BodyFault::Action);
    }
    own_data(row, id, s).map_err(BodyFault::Data)
}

// The unit with this header, by its body, if that keeps the rules 8 and 9.
fn found(
    edition: Edition,
    header: Header,
    next: usize,
    body: Result<usize, BodyFault>,
) -> Result<Admitted, Fault>
    requires { Short (bodied body) }
    ensures { judged result ≡ found_by (layout_of edition) header.id header.action header.length next (bodied body) }
{
    let p = prefix(edition);
    match body {
        Err(fault) => Err(fault.told(0, p)),
        Ok(k) => Ok(Admitted {
            id: header.id,
            action: header.action,
            own: p + k,
            length: header.length,
            state: next,
        }),
    }
}

// What comes after the admission: rules 8 and 9 on the bytes after the prefix, and the unit with this header, if it keeps them. `next`
// is the state that the enclosing unit is then in, by whatever table it was admitted.
pub fn judge_admitted<R: NameRow>(
    row: &R,
    edition: Edition,
    header: Header,
    next: usize,
    s: &[u8],
) -> Result<Admitted, Fault>
    ensures { judged result ≡ found_by (layout_of edition) header.id header.action header.length next
        (body_by (R.bytes row.now) header.id header.action s.now) }
{
    let body = judge_body(row, header.id, header.action, s);
    found(edition, header, next, body)
}

// Rule 7: what a state admits, by whatever tells it.
pub trait Admits {
    ghost next: { Self → ℕ → ℕ → ℕ };

    // The state after a child of this id, where it is admitted.
    fn admit(&self, state: usize, id: usize) -> Option<usize>
        ensures { result ≡ some_state (next self.now state id) };
}

// By the grammar's rows.
#[derive(Clone, Copy)]
pub struct Grammar;

impl Admits for Grammar {
    ghost next = { λ _. admit };

    #[inline]
    fn admit(&self, state: usize, id: usize) -> Option<usize> {
        state_after(state, id)
    }
}

// Rules 3 to 9: for a unit nested in one that is in `state`, or with `root` for one that fills what is lent.
#[inline]
pub fn judge<R: NameRow, A: Admits>(
    row: &R,
    admits: &A,
    edition: Edition,
    root: bool,
    state: usize,
    s: &[u8],
) -> Result<Admitted, Fault>
    ensures { judged result ≡ judge_by (R.bytes row.now) (layout_of edition) root (A.next admits.now state) s.now }
{
    let header = head(edition, root, s)?;
    let Some(next) = admits.admit(state, header.id) else {
        return Err(Fault::from(Refusal::NotAdmitted));
    };
    let p = prefix(edition);
    judge_admitted(row, edition, header, next, &s[p..header.length])
}

// The same for a stream's root. It has no own data, and its action is none: as an instance of `judge` it would ask for both, and be no plainer.
pub fn judge_root(edition: Edition, s: &[u8]) -> Result<Admitted, Fault>
    ensures { judged result ≡ judge_of (layout_of edition) true 0 s.now }
{
    let header = head(edition, true, s)?;
    if !is_root_kind(header.id) {
        return Err(Fault::from(Refusal::NotAdmitted));
    }
    if header.action != NONE {
        return Err(Fault::from(Refusal::Action));
    }
    let own = prefix(edition);
    let state = first_state(header.id).unwrap();
    Ok(Admitted {
        id: header.id,
        action: header.action,
        own,
        length: header.length,
        state,
    })
}
