// What the builder asks of a unit or a group by itself before it writes: what is wrong with it, and whether there is room.
#![tactic(auto)]

ghost use Rattle.std.specs.Prelude.{◌≡◌};
ghost use Rattle.cdf_unit_prefix.specs.Layout.{layout_of};
ghost use Rattle.cdf_builder_spec.specs.Calls.{room};
ghost use Rattle.cdf_builder_faults.specs.Parts.{own_fault, group_of};
ghost use Rattle.cdf_builder_spec.specs.Told.{told};

use cdf_check::check_as;
use cdf_refusal::Refusal;
use cdf_unit_judge::judge_body;
use cdf_unit_own::Published;
use cdf_unit_prefix::{Edition, limit, prefix};
use cdf_unit_table::{ER_GROUP, FILE_GROUP, first_state};

// Rules 8 and 9 for a unit that is given. One that admits others holds nothing after its name or its numbers. Id, action and own data are three
// parameters here and in the calls above, as C hands them.
pub fn own_fault(id: usize, action: usize, data: &[u8]) -> Result<(), Refusal>
    ensures { told result ≡ own_fault id action «data».now }
{
    let k = judge_body(&Published, id, action, data)?;
    if first_state(id).is_none() || k == data.len() {
        return Ok(());
    }
    Err(Refusal::OwnData)
}

// The id of a group that the check accepts.
pub fn group_id(edition: Edition, group: &[u8]) -> Option<usize>
    ensures { result ≡ group_of (layout_of edition) group.now }
{
    let id = *group.get(prefix(edition) - 1)? as usize;
    let is_group = (id == ER_GROUP) | (id == FILE_GROUP);
    if !is_group {
        return None;
    }
    check_as(edition, group).ok().and(Some(id))
}

// Whether a stream may have so many bytes, in a buffer of n.
pub fn room(edition: Edition, n: usize, size: usize) -> Result<(), Refusal>
    ensures { told result ≡ room (layout_of edition) n size }
{
    if limit(edition) < size {
        return Err(Refusal::TooLong);
    }
    if n < size {
        return Err(Refusal::NoRoom);
    }
    Ok(())
}
