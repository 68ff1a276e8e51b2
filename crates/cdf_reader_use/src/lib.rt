// What every call but a start asks first: whether it has something to do.
#![tactic(auto)]

ghost use Rattle.std.specs.Prelude.{◌≡◌};
ghost use Rattle.cdf_reader_spec.specs.Calls.{is_start};
ghost use Rattle.cdf_reader_use.specs.Uses.{may_pass, has_use};

use cdf_reader_spec::Call;
use cdf_unit_table::{ER_GROUP, FILE_GROUP, first_state};

// A start is the one call that needs no place.
pub fn is_start(call: Call) -> bool
    ensures { result ≡ is_start call }
{
    matches!(call, Call::Start)
}

// Whether the last unit was not entered, skipped or taken, and admits others. `count` units are open, the last one has this id.
#[tactic(auto, unfolding(cdf_unit_table::specs::States::opens))]
fn may_pass(count: usize, fresh: bool, id: usize) -> bool
    ensures { result ≡ may_pass count fresh id }
{
    (count != 0) && fresh && first_state(id).is_some()
}

// Whether the call has something to do. Three fields of a place, whose struct stands above this crate.
pub fn has_use(call: Call, count: usize, fresh: bool, id: usize) -> bool
    ensures { result ≡ has_use call count fresh id }
{
    match call {
        Call::Start => true,
        Call::Next | Call::Previous => count != 0,
        Call::Skip => may_pass(count, fresh, id),
        Call::GetStream => {
            may_pass(count, fresh, id) && ((id == ER_GROUP) || (id == FILE_GROUP))
        }
    }
}
