// Which of two values counts, for programs in C.
#![tactic(auto)]

ghost use Rattle.std.specs.Prelude.{◌≡◌};
ghost use Rattle.cdf_lookup.specs.Answers.{due};
ghost use Rattle.cdf_lookup_c.specs.Answer.{answer_of};

use cdf_lookup::lookup_place;
use cdf_lookup_spec::Query;

// The value of a field in the first of two streams that has it: the number; in answer the offset, which stream has it, and where it
// starts there and how many bytes it has.
#[unsafe(no_mangle)]
pub extern "C" fn cdf_lookup(
    first: &[u8],
    second: &[u8],
    template: &[u8],
    key_id: u64,
    key: &[u8],
    field: &[u8],
    answer: &mut [u64; 4],
) -> u64
    ensures number { result ≡ (due first.entry second.entry template.entry key_id key.entry field.entry).number }
    ensures answer { answer.new ≡ answer_of (due first.entry second.entry template.entry key_id key.entry field.entry) }
{
    let asked = Query {
        template,
        key_id: key_id as usize,
        key,
        field,
    };
    match lookup_place(first, second, asked) {
        Ok(found) => {
            *answer = [0, found.which as u64, found.start as u64, found.size as u64];
            0
        }
        Err(fault) => {
            *answer = [fault.offset as u64, 0, 0, 0];
            fault.refusal.number() as u64
        }
    }
}
