// The reader's calls on plain numbers, as they cross to C: a place is 25 of them and an answer 10.
#![tactic(auto)]

ghost use Rattle.std.specs.Prelude.{◌≡◌};
ghost use Rattle.cdf_reader_spec.specs.Calls.{empty_place};
ghost use Rattle.cdf_reader_numbers.specs.Numbers.{answer_numbers, keeps, Called};
ghost use Rattle.cdf_reader_numbers.specs.Taking.{part_is};
ghost use Rattle.cdf_reader_call_numbers.specs.Telling.{number_told, place_told, answer_told, Tells};

use cdf_reader::{Answer, is_start};
use cdf_reader_numbers::{Part, place_from, write_place};
use cdf_reader_spec::Call;
use cdf_refusal::Fault;
use cdf_unit_list::{Ranked, Unit};

// Writes the numbers of an answer, among which are neither the call's number nor the place.
pub fn write_answer(offset: usize, handed: Ranked, part: Part, a: &mut [u64; 10])
    ensures { a.new ≡ answer_numbers (record { number = 0; offset = offset; handed = handed; place = empty_place }) (part_is part) }
{
    *a = [
        offset as u64,
        handed.unit.id as u64,
        handed.unit.action as u64,
        handed.unit.start as u64,
        handed.unit.own as u64,
        handed.unit.end as u64,
        part.start as u64,
        part.size as u64,
        handed.depth as u64,
        handed.rank as u64,
    ];
}

// Whether a call that is not refused leaves the place's numbers as they were.
fn is_kept(call: Call) -> bool
    ensures { result ≡ keeps call 0 }
{
    matches!(call, Call::Previous)
}

// What a call came to at the place that the numbers are, `last` the last unit there: the number; the answer's numbers are written always, the
// place's unless they are kept.
pub fn tell(
    call: Call,
    told: Result<Answer, Fault>,
    last: Unit,
    place: &mut [u64; 25],
    answer: &mut [u64; 10],
) -> u64
    ensures is { result ≡ number_told told }
    ensures moves { place.new ≡ place_told call told place.old }
    ensures writes { answer.new ≡ answer_told call told last }
    ensures due { Tells call told last place.old result place.new answer.new }
{
    match told {
        Ok(a) => {
            write_answer(0, a.handed, Part::of(call, 0, last), answer);
            if !is_kept(call) {
                write_place(a.place, place);
            }
            0
        }
        Err(fault) => {
            write_answer(fault.offset, Ranked::default(), Part::default(), answer);
            if is_start(call) {
                *place = [0; 25];
            }
            fault.refusal.number() as u64
        }
    }
}

// Any call.
pub fn answer_to(call: Call, s: &[u8], place: &mut [u64; 25], answer: &mut [u64; 10]) -> u64
    ensures { Called call s.now place.old result place.new answer.new }
{
    let p = place_from(place);
    tell(call, p.call(call, s), p.last, place, answer)
}
