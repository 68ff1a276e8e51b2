// NEXT for programs in C, straight on the numbers of the place. It stands in an archive without the other calls, so that the compiler makes
// one function of all that it asks and does.
#![tactic(auto)]

ghost use Rattle.cdf_reader_spec.specs.declared.Call.TheVariants.{Next};
ghost use Rattle.cdf_reader_numbers.specs.Numbers.{Called};

use cdf_reader_fit_numbers::fits_at;
use cdf_reader_step_numbers::step_at;
use cdf_refusal::Refusal;
use cdf_unit_prefix::edition_of;

// NEXT: hands out the next unit.
#[unsafe(no_mangle)]
pub extern "C" fn cdf_next(s: &[u8], place: &mut [u64; 25], answer: &mut [u64; 10]) -> u64
    ensures { Called Next s.now place.old result place.new answer.new }
{
    if place[1] == 0 {
        *answer = [0; 10];
        return Refusal::NoUse.number() as u64;
    }
    let edition = edition_of(s);
    if !fits_at(edition, s.len(), place) {
        *answer = [0; 10];
        return Refusal::Place.number() as u64;
    }
    step_at(edition, s, place, answer)
}
