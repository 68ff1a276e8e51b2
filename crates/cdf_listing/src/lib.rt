// The listing of a stream as text, written into a lent buffer.
#![tactic(auto)]

ghost use Rattle.std.specs.Prelude.{◌≡◌, leb, length};
ghost use Rattle.cdf_unit_prefix.specs.Layout.{layout_of};
ghost use Rattle.cdf_unit_prefix.specs.declared.Edition.TheVariants.{First};
ghost use Rattle.cdf_listing_spec.specs.Text.{listed_lines, listing_text};
ghost use Rattle.cdf_listing_lines.specs.Put.{Put};
ghost use Rattle.cdf_listing.specs.Written.{any_fits, written_by, written_of, buffer_of};

use cdf_check::check_as;
use cdf_listing_lines::{put_line, put_ok, put_refused};
use cdf_reader::first_as;
use cdf_refusal::Refusal;
use cdf_unit_own::row::NAME_BYTES;
use cdf_unit_prefix::Edition;

// A line for each unit, from the front of the buffer on. Each step goes on from the place that the one before it left.
fn put_units(s: &[u8], out: &mut [u8]) -> usize
    ensures { Put out.old 0 (listed_lines (layout_of First) s.now) out.new result }
{
    let row = NAME_BYTES;
    let mut next = first_as(Edition::First, s);
    let mut at = 0;
    while let Ok(a) = next {
        let unit = a.handed.unit;
        let size = unit.end - unit.start;
        at = put_line(out, at as u32, a.handed.depth, unit, size);
        next = a.place.advance(&row, Edition::First, s);
    }
    at
}

// The whole text, from the front of the buffer on.
fn put_listing(s: &[u8], out: &mut [u8]) -> usize
    ensures { Put out.old 0 (listing_text (layout_of First) s.now) out.new result }
{
    match check_as(Edition::First, s) {
        Ok(units) => {
            let at = put_units(s, out);
            put_ok(out, at as u32, units)
        }
        Err(fault) => put_refused(out, fault.refusal.number(), fault.offset),
    }
}

// Whether the room is enough for the listing of any n bytes. It is asked by lines, so that no product can be too large.
fn any_fits(n: usize, room: usize) -> bool
    ensures { result ≡ any_fits n room }
{
    if room < 9 {
        return false;
    }
    let lines = (room - 9) / 19;
    (n / 6 <= lines) & (6 <= n)
}

// Whether the listing of s fits the room: if need be it is counted, by a pass whose buffer is too small for any text.
fn text_fits(s: &[u8], room: usize) -> bool
    ensures { result ≡ leb (length (listing_text (layout_of First) s.now)) room }
{
    if any_fits(s.len(), room) {
        return true;
    }
    let mut none = [0u8; 1];
    let size = put_listing(s, &mut none);
    size <= room
}

// Writes the listing of s, a stream of the first edition or any other bytes, at the front of the buffer, if the whole of it fits, and
// returns how many bytes it is.
pub fn write_listing(s: &[u8], buffer: &mut [u8]) -> Result<usize, Refusal>
    ensures is { written_by result ≡ written_of (listing_text (layout_of First) s.now) buffer.old }
    ensures bytes { buffer.new ≡ buffer_of (listing_text (layout_of First) s.now) buffer.old }
{
    if !text_fits(s, buffer.len()) {
        return Err(Refusal::NoRoom);
    }
    Ok(put_listing(s, buffer))
}
