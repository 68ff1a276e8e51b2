// A turn, and what stands between and behind the passes, of a struct of numbers: any number, which no refusal need have.
ghost use Rattle.std.specs.Prelude.{◌≡◌};
ghost use Rattle.cdf_unit_prefix.specs.Layout.{layout_of};
ghost use Rattle.cdf_unit_prefix.specs.declared.Edition.TheVariants.{First};
ghost use Rattle.cdf_batch_turn.specs.Passes.{going_of, turn_of, second_of, told_of};

use crate::{Batched, Pass, PlaceNumbers, Ran, take};
use cdf_batch_spec::UnitRequest;

// The request of this rank: judged in the first pass, written in the second. After a refusal nothing is done.
pub fn turn(ran: Ran, buffer: &mut [u8], rank: usize, r: UnitRequest, text: &[u8]) -> Ran
    ensures { going_of result buffer.new ≡ turn_of (layout_of First) text.now (going_of ran buffer.old) rank r }
{
    if ran.number != 0 {
        return ran;
    }
    let pass = if ran.writing {
        Pass::Writing
    } else {
        Pass::Judging
    };
    match take(pass, ran.place, buffer, r, text) {
        Ok(place) => Ran {
            number: 0,
            rank: 0,
            place,
            ..ran
        },
        Err(refusal) => Ran {
            number: refusal.number(),
            rank,
            ..ran
        },
    }
}

// Between the passes: the second begins at the place where the first did.
pub fn second(place: PlaceNumbers, ran: Ran) -> Ran
    ensures { result ≡ second_of place ran }
{
    if ran.number == 0 {
        return Ran {
            writing: true,
            number: 0,
            rank: 0,
            place,
        };
    }
    ran
}

// Behind the second pass: beside a number other than 0 the place that was given.
pub fn told(given: PlaceNumbers, ran: Ran) -> Batched
    ensures { result ≡ told_of given ran }
{
    let built = ran.place;
    if ran.number == 0 {
        return Batched {
            number: 0,
            rank: ran.rank,
            place: built,
        };
    }
    Batched {
        number: ran.number,
        rank: ran.rank,
        place: given,
    }
}
