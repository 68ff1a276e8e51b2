// The calls of the reader that is driven by a table, for programs in C, on the numbers of the first reader's places and answers. Each leaves what that
// one's call does.
#![tactic(auto)]

ghost use Rattle.cdf_reader_spec.specs.declared.Call.TheVariants.{Start, Next, Skip};
ghost use Rattle.cdf_reader_numbers.specs.Numbers.{Called};

use cdf_reader_call_numbers::{answer_to, tell};
use cdf_reader_numbers::{last_of, place_from};
use cdf_reader_spec::Call;
use cdf_table_reader::{TablePlace, table_first};

// FIRST: judges the root, admitted by row 0, and hands it out. A refused one writes 25 zeros as the place.
#[unsafe(no_mangle)]
pub extern "C" fn cdf_table_first(s: &[u8], place: &mut [u64; 25], answer: &mut [u64; 10]) -> u64
    ensures { Called Start s.now place.old result place.new answer.new }
{
    tell(Call::Start, table_first(s), last_of(place), place, answer)
}

// NEXT: closes what ends here, then reads the unit at the position.
#[unsafe(no_mangle)]
pub extern "C" fn cdf_table_next(s: &[u8], place: &mut [u64; 25], answer: &mut [u64; 10]) -> u64
    ensures { Called Next s.now place.old result place.new answer.new }
{
    let t = TablePlace {
        place: place_from(place),
    };
    tell(Call::Next, t.next(s), t.place.last, place, answer)
}

// SKIP: passes the last unit with all that is in it. It looks into no row.
#[unsafe(no_mangle)]
pub extern "C" fn cdf_table_skip(s: &[u8], place: &mut [u64; 25], answer: &mut [u64; 10]) -> u64
    ensures { Called Skip s.now place.old result place.new answer.new }
{
    answer_to(Call::Skip, s, place, answer)
}
