// Many units in a call, for programs in C.
#![tactic(auto)]

ghost use Rattle.cdf_reader_units_c.specs.Batched.{Batched};

use cdf_reader_numbers::{place_from, write_place};
use cdf_reader_units::fill;

// NEXTs as long as the list has room: seven numbers for each unit. The answer is the offset and how many units there are.
#[unsafe(no_mangle)]
pub extern "C" fn cdf_units(
    s: &[u8],
    place: &mut [u64; 25],
    list: &mut [u64],
    answer: &mut [u64; 2],
) -> u64
    ensures { Batched s.now place.old list.old result place.new list.new answer.new }
{
    match fill(place_from(place), s, list) {
        Ok(f) => {
            *answer = [0, f.count as u64];
            if f.count != 0 {
                write_place(f.place, place);
            }
            0
        }
        Err(fault) => {
            *answer = [fault.offset as u64, 0];
            fault.refusal.number() as u64
        }
    }
}
