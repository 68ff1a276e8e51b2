// The builder's writes into a lent buffer. Where there is no room for all the bytes, nothing is written.
#![tactic(auto)]

ghost use Rattle.std.specs.Prelude.{◌≡◌, [], ◌++◌, ◌+◌, ◌≤◌, leb, length, drop};
ghost use Rattle.cdf_unit_prefix.specs.Layout.{layout_of, prefix_of};
ghost use Rattle.cdf_grammar.specs.Encoding.{bytes_of, prefix_bytes, unit_bytes};
ghost use Rattle.cdf_builder_write.specs.Patch.{patch};

use cdf_builder_copy::copy;
use cdf_unit_prefix::{Edition, prefix, second_mark};

// Whether `count` bytes from a position on are within the n there are.
fn has_room(n: usize, at: usize, count: usize) -> bool
    ensures { result ≡ leb (at + count) n }
{
    if n < count {
        return false;
    }
    at <= n - count
}

// The functions named put_.. are lent only the tail that begins at the writing place. This one writes a number's last `width` bytes.
fn put_number(width: usize, tail: &mut [u8], number: usize)
    requires { (width ≤ 8) × (width ≤ length tail.old) }
    ensures { tail.new ≡ bytes_of width number ++ drop width tail.old }
{
    copy(tail, &number.to_be_bytes()[8 - width..]);
}

// How many bytes a length has.
fn length_bytes(edition: Edition) -> usize
    ensures is { result ≡ (layout_of edition).length_bytes }
    ensures few { result ≤ 4 }
{
    prefix(edition) - 4
}

fn put_prefix(edition: Edition, tail: &mut [u8], len: usize, action: u8, id: u8)
    requires { prefix_of (layout_of edition) ≤ length tail.old }
    ensures { tail.new ≡ prefix_bytes (layout_of edition) len action id ++ drop (prefix_of (layout_of edition)) tail.old }
{
    let width = length_bytes(edition);
    let mark = second_mark(edition);
    tail[0] = 0xCD;
    tail[1] = mark;
    put_number(width, &mut tail[2..], len);
    tail[width + 2] = action;
    tail[width + 3] = id;
}

// A unit with nothing nested in it.
fn put_unit(edition: Edition, tail: &mut [u8], id: u8, action: u8, data: &[u8])
    requires { prefix_of (layout_of edition) + length «data».now ≤ length tail.old }
    ensures { tail.new ≡ unit_bytes (layout_of edition) id action «data».now []
        ++ drop (prefix_of (layout_of edition) + length «data».now) tail.old }
{
    let p = prefix(edition);
    put_prefix(edition, tail, p + data.len(), action, id);
    copy(&mut tail[p..], data);
}

// Writes a unit with nothing nested in it.
pub fn write_unit(edition: Edition, buffer: &mut [u8], at: usize, id: u8, action: u8, data: &[u8])
    ensures { buffer.new ≡ patch at (unit_bytes (layout_of edition) id action «data».now []) buffer.old }
{
    let size = prefix(edition) + data.len();
    if has_room(buffer.len(), at, size) {
        put_unit(edition, &mut buffer[at..], id, action, data);
    }
}

// Writes the length of the unit that starts at `start` anew.
pub fn write_length(edition: Edition, buffer: &mut [u8], start: usize, len: usize)
    ensures { buffer.new ≡ patch (start + 2) (bytes_of (layout_of edition).length_bytes len) buffer.old }
{
    let width = length_bytes(edition);
    if has_room(buffer.len(), start, width + 2) {
        let at = start + 2;
        put_number(width, &mut buffer[at..], len);
    }
}

// Writes bytes as they are.
pub fn write_bytes(buffer: &mut [u8], at: usize, bytes: &[u8])
    ensures { buffer.new ≡ patch at bytes.now buffer.old }
{
    if has_room(buffer.len(), at, bytes.len()) {
        copy(&mut buffer[at..], bytes);
    }
}
