// What the builder asks before it writes: where a unit or a group joins, and whether all open units are complete.
#![tactic(auto)]

ghost use Rattle.std.specs.Prelude.{◌≡◌};
ghost use Rattle.cdf_builder_spec.specs.Requests.{joining, completed, join_number, advanced};
ghost use Rattle.cdf_builder_spec.specs.Slots.{begun};
ghost use Rattle.cdf_builder_join.specs.Joins.{refusal_of, number_told, left_open};

use cdf_builder_spec::Begun;
use cdf_open_units::{Left, OpenUnits};
use cdf_refusal::Refusal;
use cdf_unit_table::{is_complete, state_after};

// Why a unit does not join.
#[derive(Clone, Copy)]
pub enum Unjoined {
    // No open unit admits it.
    Nowhere,
    // One does, but a unit inside that one is incomplete.
    Past(Left<Begun>),
}

impl From<Unjoined> for Refusal {
    ghost from_gives = { λ u r. r ≡ refusal_of u };

    fn from(unjoined: Unjoined) -> Refusal {
        match unjoined {
            Unjoined::Nowhere => Refusal::NotAdmitted,
            Unjoined::Past(_) => Refusal::Incomplete,
        }
    }
}

// Joins the innermost open unit that admits the id: those that are left open, the innermost of which has had the unit.
pub fn join(id: usize, units: OpenUnits<Begun>) -> Result<Left<Begun>, Unjoined>
    ensures number { number_told result ≡ join_number (begun units) id 0 }
    ensures left { left_open units result ≡ advanced id (joining id (begun units)) }
{
    let mut inner = units.top;
    let mut full = true;
    for left in (1..=units.count).rev() {
        if let Some(next) = state_after(inner.state, id) {
            let joined = Left {
                count: left,
                top: Begun {
                    state: next,
                    ..inner
                },
            };
            if full {
                return Ok(joined);
            }
            return Err(Unjoined::Past(joined));
        }
        full &= is_complete(inner.state);
        inner = units.around(left).unwrap_or(Begun::default());
    }
    Err(Unjoined::Nowhere)
}

// Whether every open unit is complete.
pub fn is_completed(units: OpenUnits<Begun>) -> bool
    ensures { result ≡ completed (begun units) }
{
    let mut inner = units.top;
    for left in (1..=units.count).rev() {
        if !is_complete(inner.state) {
            return false;
        }
        inner = units.around(left).unwrap_or(Begun::default());
    }
    true
}
