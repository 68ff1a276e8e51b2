// START, NEXT and ADD_STREAM for streams of either edition: what is decided, and where nothing is refused, the bytes.
#![tactic(auto)]

ghost use Rattle.std.specs.Prelude.{◌≡◌};
ghost use Rattle.cdf_unit_prefix.specs.Layout.{layout_of};
ghost use Rattle.cdf_builder_spec.specs.Requests.{unit, group};
ghost use Rattle.cdf_builder_spec.specs.Calls.{start_of, call_of};
ghost use Rattle.cdf_builder_spec.specs.Slots.{placed};
ghost use Rattle.cdf_builder_calls.specs.Replies.{reply_of, no_parts};

use cdf_builder_append::{append_group, append_unit};
use cdf_builder_decide::{decide_group, decide_unit};
use cdf_builder_spec::{Begun, Parts};
use cdf_builder_write::write_unit;
use cdf_open_units::OpenUnits;
use cdf_refusal::Refusal;
use cdf_unit_prefix::{Edition, prefix};
use cdf_unit_table::{first_state, is_known, is_root_kind};

// START, with a root of this id: an unknown id, one that is no root's, no room.
pub fn start_as(edition: Edition, buffer: &mut [u8], root: usize) -> Result<Parts, Refusal>
    ensures { reply_of no_parts result buffer.new ≡ start_of (layout_of edition) buffer.old root }
{
    if !is_known(root) {
        return Err(Refusal::UnknownId);
    }
    if !is_root_kind(root) {
        return Err(Refusal::NotAdmitted);
    }
    let written = prefix(edition);
    if buffer.len() < written {
        return Err(Refusal::NoRoom);
    }
    let state = first_state(root).unwrap();
    write_unit(edition, buffer, 0, (root % 256) as u8, 0, &[]);
    Ok(Parts {
        written,
        units: OpenUnits {
            count: 1,
            top: Begun { state, start: 0 },
            ..OpenUnits::default()
        },
    })
}

// NEXT, with a unit of this id, action and own data.
pub fn next_as(
    edition: Edition,
    buffer: &mut [u8],
    p: Parts,
    id: usize,
    action: usize,
    data: &[u8],
) -> Result<Parts, Refusal>
    ensures { reply_of p result buffer.new
        ≡ call_of (layout_of edition) buffer.old (placed p) (unit (record { id = id; action = action; text = «data».now })) }
{
    let place = decide_unit(edition, buffer.len(), p, id, action, data)?;
    // An id and an action that are accepted are small, but the casts ask for a bound.
    let unit_id = (id % 256) as u8;
    let unit_action = (action % 256) as u8;
    append_unit(
        edition,
        buffer,
        p.written,
        place,
        unit_id,
        unit_action,
        data,
    );
    Ok(place)
}

// ADD_STREAM, with the bytes of a group.
pub fn add_stream_as(
    edition: Edition,
    buffer: &mut [u8],
    p: Parts,
    bytes: &[u8],
) -> Result<Parts, Refusal>
    ensures { reply_of p result buffer.new ≡ call_of (layout_of edition) buffer.old (placed p) (group bytes.now) }
{
    let place = decide_group(edition, buffer.len(), p, bytes)?;
    append_group(edition, buffer, p.written, place, bytes);
    Ok(place)
}
