// The builder's calls for programs in C, but for NEXT. A place is 10 numbers.
#![tactic(auto)]

ghost use Rattle.std.specs.Prelude.{◌≡◌, [], ◌∷◌, length};
ghost use Rattle.cdf_unit_prefix.specs.Layout.{layout_of};
ghost use Rattle.cdf_unit_prefix.specs.declared.Edition.TheVariants.{First};
ghost use Rattle.cdf_builder_spec.specs.Requests.{group};
ghost use Rattle.cdf_builder_spec.specs.Calls.{start_of, finish_of};
ghost use Rattle.cdf_builder.specs.View.{view, no_builder};
ghost use Rattle.cdf_builder_numbers.specs.Numbers.{builder_from, numbers_of, reply_from, call_from};

use cdf_builder::start;
use cdf_builder_numbers::{builder_from, store_answer};
use cdf_refusal::tell;

// START: the number; the place's numbers are written always, as zeros where the start is refused.
#[unsafe(no_mangle)]
pub extern "C" fn cdf_build_first(buffer: &mut [u8], root: u64, place: &mut [u64; 10]) -> u64
    ensures is { reply_from result place.new buffer.new ≡ start_of (layout_of First) buffer.old root }
    ensures clears { (result ≡ 0 → ⊥) → place.new ≡ numbers_of no_builder }
{
    *place = [0; 10];
    store_answer(start(buffer, root as usize), place)
}

// ADD_STREAM: the number; the place's numbers are written where it is 0.
#[unsafe(no_mangle)]
pub extern "C" fn cdf_build_add_stream(
    buffer: &mut [u8],
    place: &mut [u64; 10],
    bytes: &[u8],
) -> u64
    ensures is { reply_from result place.new buffer.new
        ≡ call_from buffer.old place.old (group bytes.now) }
    ensures stays { (result ≡ 0 → ⊥) → place.new ≡ place.old }
{
    store_answer(builder_from(place).add_stream(buffer, bytes), place)
}

// FINISH: the number; in answer the stream's length, beside any other number than 0 none.
#[unsafe(no_mangle)]
pub extern "C" fn cdf_build_finish(buffer: &[u8], place: &[u64; 10], answer: &mut [u64; 1]) -> u64
    ensures number { result ≡ (finish_of (layout_of First) (length buffer.now) (view (builder_from place.now))).number }
    ensures answer { answer.new
        ≡ (finish_of (layout_of First) (length buffer.now) (view (builder_from place.now))).length ∷ [] }
{
    tell(builder_from(place).finish(buffer), answer)
}
