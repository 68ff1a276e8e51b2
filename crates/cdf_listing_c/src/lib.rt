// The listing for programs in C.
#![tactic(auto)]

ghost use Rattle.std.specs.Prelude.{◌≡◌, [], ◌∷◌};
ghost use Rattle.cdf_unit_prefix.specs.Layout.{layout_of};
ghost use Rattle.cdf_unit_prefix.specs.declared.Edition.TheVariants.{First};
ghost use Rattle.cdf_listing_spec.specs.Text.{listing_text};
ghost use Rattle.cdf_listing.specs.Written.{written_of, buffer_of};

use cdf_listing::write_listing;
use cdf_refusal::tell;

// Writes the listing of s at the front of text, if the whole of it fits: the number, 0 or 12; in answer the listing's length, beside
// 12 none.
#[unsafe(no_mangle)]
pub extern "C" fn cdf_listing(s: &[u8], text: &mut [u8], answer: &mut [u64; 1]) -> u64
    ensures number { result ≡ (written_of (listing_text (layout_of First) s.now) text.old).number }
    ensures answer { answer.new ≡ (written_of (listing_text (layout_of First) s.now) text.old).length ∷ [] }
    ensures bytes { text.new ≡ buffer_of (listing_text (layout_of First) s.now) text.old }
{
    tell(write_listing(s, text), answer)
}
