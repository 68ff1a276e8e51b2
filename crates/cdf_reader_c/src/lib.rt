// The reader's single calls for programs in C, but NEXT, which has an archive of its own.
#![tactic(auto)]

ghost use Rattle.std.specs.Prelude.{◌≡◌};
ghost use Rattle.cdf_reader_spec.specs.Calls.{no_part, abnormal_end};
ghost use Rattle.cdf_reader_spec.specs.declared.Call.TheVariants.{Start, Skip, GetStream, Previous};
ghost use Rattle.cdf_reader.specs.View.{no_place};
ghost use Rattle.cdf_reader_numbers.specs.Numbers.{numbers_of, answer_numbers, Called};

use cdf_reader_call_numbers::answer_to;
use cdf_reader_spec::Call;

// FIRST: judges the root and hands it out. A refused one writes 25 zeros as the place.
#[unsafe(no_mangle)]
pub extern "C" fn cdf_first(s: &[u8], place: &mut [u64; 25], answer: &mut [u64; 10]) -> u64
    ensures { Called Start s.now place.old result place.new answer.new }
{
    answer_to(Call::Start, s, place, answer)
}

// SKIP: passes the last unit with all that is in it.
#[unsafe(no_mangle)]
pub extern "C" fn cdf_skip(s: &[u8], place: &mut [u64; 25], answer: &mut [u64; 10]) -> u64
    ensures { Called Skip s.now place.old result place.new answer.new }
{
    answer_to(Call::Skip, s, place, answer)
}

// GET_STREAM: the same for a group, whose bytes are the part.
#[unsafe(no_mangle)]
pub extern "C" fn cdf_get_stream(s: &[u8], place: &mut [u64; 25], answer: &mut [u64; 10]) -> u64
    ensures { Called GetStream s.now place.old result place.new answer.new }
{
    answer_to(Call::GetStream, s, place, answer)
}

// PREVIOUS: hands out the last unit again; the place stays as it is, in every number.
#[unsafe(no_mangle)]
pub extern "C" fn cdf_previous(s: &[u8], place: &mut [u64; 25], answer: &mut [u64; 10]) -> u64
    ensures { Called Previous s.now place.old result place.new answer.new }
{
    answer_to(Call::Previous, s, place, answer)
}

// ABNORMAL_END: gives the reading up. 0, and zeros in the place and in the answer.
#[unsafe(no_mangle)]
pub extern "C" fn cdf_abnormal_end(s: &[u8], place: &mut [u64; 25], answer: &mut [u64; 10]) -> u64
    ensures { (result ≡ 0) × (place.new ≡ numbers_of no_place) × (answer.new ≡ answer_numbers abnormal_end no_part) }
{
    *place = [0; 25];
    *answer = [0; 10];
    0
}
