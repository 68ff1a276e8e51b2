// What the builder decides before it writes: whether a request is right where it stands, and the place then.
#![tactic(auto)]

ghost use Rattle.std.specs.Prelude.{ℕ, ◌≡◌, ◌+◌, ◌<◌, ◌^◌};
ghost use Rattle.cdf_unit_table.specs.States.{some_state};
ghost use Rattle.cdf_unit_prefix.specs.Layout.{layout_of};
ghost use Rattle.cdf_builder_spec.specs.Requests.{unit, group};
ghost use Rattle.cdf_builder_spec.specs.Calls.{decide_of};
ghost use Rattle.cdf_builder_spec.specs.Slots.{placed};
ghost use Rattle.cdf_builder_decide.specs.Grown.{decision_of, Growable, growing};

use cdf_builder_enter::enter;
use cdf_builder_faults::{group_id, own_fault, room};
use cdf_builder_fit::is_fit;
use cdf_builder_join::join;
use cdf_builder_spec::{Begun, Parts};
use cdf_open_units::Left;
use cdf_refusal::Refusal;
use cdf_unit_prefix::{Edition, prefix};
use cdf_unit_table::{first_state, is_known};

// The place with so many bytes more, where there is room for them, and the new unit in its first state, if it has one.
fn grow(
    edition: Edition,
    n: usize,
    p: Parts,
    left: Left<Begun>,
    size: usize,
    first: Option<usize>,
) -> Result<Parts, Refusal>
    requires { p.written + size < 2 ^ 64 }
    ensures { (k : ℕ) → first ≡ some_state k → Growable (layout_of edition) n p left.count size k
        → decision_of p result ≡ growing (layout_of edition) n p left.count left.top size k }
{
    let sum = p.written + size;
    room(edition, n, sum)?;
    Ok(enter(p, left, sum, first))
}

// What NEXT will answer with a buffer of n bytes: the place then, or the first of a place that does not fit, an unknown id, one that is not
// admitted, an incomplete unit, a wrong action, wrong own data, a stream too long, and no room.
pub fn decide_unit(
    edition: Edition,
    n: usize,
    p: Parts,
    id: usize,
    action: usize,
    data: &[u8],
) -> Result<Parts, Refusal>
    ensures { decision_of p result
        ≡ decide_of (layout_of edition) n (placed p) (unit (record { id = id; action = action; text = «data».now })) }
{
    if !is_fit(edition, n, p) {
        return Err(Refusal::Place);
    }
    if !is_known(id) {
        return Err(Refusal::UnknownId);
    }
    let left = join(id, p.units)?;
    own_fault(id, action, data)?;
    let size = prefix(edition) + data.len();
    grow(edition, n, p, left, size, first_state(id))
}

// The same for ADD_STREAM, where no group comes second, and no action or own data is asked.
pub fn decide_group(edition: Edition, n: usize, p: Parts, bytes: &[u8]) -> Result<Parts, Refusal>
    ensures { decision_of p result ≡ decide_of (layout_of edition) n (placed p) (group bytes.now) }
{
    if !is_fit(edition, n, p) {
        return Err(Refusal::Place);
    }
    let id = group_id(edition, bytes).ok_or(Refusal::NoGroup)?;
    let left = join(id, p.units)?;
    grow(edition, n, p, left, bytes.len(), None)
}
