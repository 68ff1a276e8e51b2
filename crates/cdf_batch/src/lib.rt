// A whole person in one request (02, j): a lent list of unit requests is built, or nothing is.
#![tactic(auto)]

ghost use Rattle.std.specs.Prelude.{◌≡◌};
ghost use Rattle.cdf_unit_prefix.specs.Layout.{layout_of};
ghost use Rattle.cdf_unit_prefix.specs.declared.Edition.TheVariants.{First};
ghost use Rattle.cdf_batch_spec.specs.Batches.{batch_of};
ghost use Rattle.cdf_batch_turn.specs.Numbers.{viewed, outcome_of};
ghost use Rattle.cdf_batch_turn.specs.Passes.{writes, going, pass_of, from_place, passed, batched_of};

use cdf_batch_spec::UnitRequest;
use cdf_batch_turn::{Batched, Pass, PlaceNumbers, Refused, begun, take, tell_batch};

// A pass over the list, up to the first request that is refused.
fn run_all(
    pass: Pass,
    start: PlaceNumbers,
    buffer: &mut [u8],
    list: &[UnitRequest],
    text: &[u8],
) -> Result<PlaceNumbers, Refused>
    ensures { passed (writes pass) (viewed start) result buffer.new
        ≡ from_place (viewed start)
        (pass_of (layout_of First) text.now (going (writes pass) (viewed start) buffer.old) 0 list.now) }
{
    let mut place = start;
    for (rank, &request) in list.iter().enumerate() {
        place = take(pass, place, buffer, request, text).map_err(|refusal| Refused {
            refusal,
            rank,
        })?;
    }
    Ok(place)
}

// Every answer is known before a byte is written.
fn build(
    given: PlaceNumbers,
    buffer: &mut [u8],
    list: &[UnitRequest],
    text: &[u8],
) -> Result<PlaceNumbers, Refused>
    ensures { outcome_of (batched_of given result) buffer.new
        ≡ batch_of (layout_of First) buffer.old text.now (viewed given) list.now }
{
    begun(given, buffer.len(), list.len())?;
    run_all(Pass::Judging, given, buffer, list, text)?;
    run_all(Pass::Writing, given, buffer, list, text)
}

// Builds the list, or nothing.
#[unsafe(no_mangle)]
pub extern "C" fn cdf_build_batch(
    place: PlaceNumbers,
    buffer: &mut [u8],
    list: &[UnitRequest],
    text: &[u8],
) -> Batched
    ensures is { outcome_of result buffer.new
        ≡ batch_of (layout_of First) buffer.old text.now (viewed place) list.now }
    ensures kept { (result.number ≡ 0 → ⊥) → result.place ≡ place }
{
    tell_batch(place, build(place, buffer, list, text))
}
