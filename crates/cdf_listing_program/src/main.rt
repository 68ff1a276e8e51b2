// Lists the stream that its input holds: a line for each unit and `ok N`, or `refused N at OFFSET`. It judges the first 65,536 bytes
// of standard input, by the first edition: no stream of that edition is longer than 65,535.
#![tactic(auto)]

ghost use Rattle.std.specs.Prelude.{◌≤◌, ◌≡◌, length, take};
ghost use Rattle.std.specs.Io.{ReadsAtMost};
ghost use Rattle.cdf_unit_prefix.specs.Layout.{layout_of};
ghost use Rattle.cdf_unit_prefix.specs.declared.Edition.TheVariants.{First};
ghost use Rattle.cdf_listing_spec.specs.Text.{listing_text};
ghost use Rattle.cdf_listing_spec.specs.Claims.{text_room};

use cdf_listing::write_listing;
use std::io::{self, Read};

// Reads until the buffer is full or the input ends, and returns how many bytes it put at the buffer's front.
fn read_full(input: &mut impl Read, buffer: &mut [u8]) -> io::Result<usize>
    ensures { ReadsAtMost result buffer.new }
{
    let mut done = 0;
    while done < buffer.len() {
        let n = input.read(&mut buffer[done..])?;
        if n == 0 {
            break;
        }
        done += n;
    }
    Ok(done)
}

// The whole text is in the buffer: there is room for the text of any 65,536 bytes.
fn list(s: &[u8], text: &mut [u8]) -> usize
    requires { (length s.now ≤ 65536) × (text_room ≤ length text.old) }
    ensures counts { (result ≤ length text.new) × (result ≡ length (take result text.new)) }
    ensures is { take result text.new ≡ listing_text (layout_of First) s.now }
{
    write_listing(s, text).unwrap_or(0)
}

fn main(rt: HostRuntime) -> io::Result<()> {
    let mut input = [0u8; 65536];
    let n = read_full(&mut rt.reader(), &mut input)?;
    let mut text = [0u8; 207527];
    let size = list(&input[..n], &mut text);
    rt.write_all(&text[..size])
}
