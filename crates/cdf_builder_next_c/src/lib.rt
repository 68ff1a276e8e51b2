// The builder's NEXT for programs in C, apart from its other calls: in its archive each function that it needs is called once, and so
// becomes a part of it.
#![tactic(auto)]

ghost use Rattle.std.specs.Prelude.{◌≡◌};
ghost use Rattle.cdf_builder_spec.specs.Requests.{unit};
ghost use Rattle.cdf_builder_numbers.specs.Numbers.{reply_from, call_from};

use cdf_builder_numbers::{builder_from, store_answer};

// NEXT: the number; the place's numbers are written where it is 0.
#[unsafe(no_mangle)]
pub extern "C" fn cdf_build_next(
    buffer: &mut [u8],
    place: &mut [u64; 10],
    id: u64,
    action: u64,
    data: &[u8],
) -> u64
    ensures is { reply_from result place.new buffer.new
        ≡ call_from buffer.old place.old (unit (record { id = id; action = action; text = «data».now })) }
    ensures stays { (result ≡ 0 → ⊥) → place.new ≡ place.old }
{
    let answer = builder_from(place).next(buffer, id as usize, action as usize, data);
    store_answer(answer, place)
}
