// The lines of a listing, put into a lent buffer.
#![tactic(auto)]

ghost use Rattle.std.specs.Prelude.{◌<◌, [], ◌∷◌, ◌++◌};
ghost use Rattle.cdf_listing_spec.specs.Decimal.{digit, decimal};
ghost use Rattle.cdf_listing_spec.specs.Text.{number, columns, ok_line, refused_line};
ghost use Rattle.cdf_listing_lines.specs.Put.{Room, Put};

use cdf_unit_list::Unit;

// The functions named put_.. put bytes at a place of the buffer, as far as it goes, and return the place behind them: with too
// small a buffer they still count. A struct of both would hold the loan, and each method had to promise that it stays.
fn put_byte(out: &mut [u8], at: usize, byte: u8) -> usize
    requires { Room at (byte ∷ []) }
    ensures { Put out.old at (byte ∷ []) out.new result }
{
    if at < out.len() {
        out[at] = byte;
    }
    at + 1
}

fn put_bytes(out: &mut [u8], at: usize, bytes: &[u8]) -> usize
    requires { Room at bytes.now }
    ensures { Put out.old at bytes.now out.new result }
{
    let mut next = at;
    for &byte in bytes {
        next = put_byte(out, next, byte);
    }
    next
}

fn put_digit(out: &mut [u8], at: usize, d: usize) -> usize
    requires { Room at (digit d) × (d < 10) }
    ensures { Put out.old at (digit d) out.new result }
{
    put_byte(out, at, b'0' + d as u8)
}

fn put_decimal(out: &mut [u8], at: usize, n: usize) -> usize
    requires { Room at (decimal n) }
    ensures { Put out.old at (decimal n) out.new result }
{
    if n < 10 {
        return put_digit(out, at, n);
    }
    let next = put_decimal(out, at, n / 10);
    put_digit(out, next, n % 10)
}

fn put_number(out: &mut [u8], at: usize, n: usize) -> usize
    requires { Room at (number n) }
    ensures { Put out.old at (number n) out.new result }
{
    let next = put_decimal(out, at, n);
    put_byte(out, next, b' ')
}

fn put_columns(out: &mut [u8], at: usize, depth: usize, unit: Unit) -> usize
    requires { Room at (columns depth unit) }
    ensures { Put out.old at (columns depth unit) out.new result }
{
    let after_start = put_number(out, at, unit.start);
    let after_depth = put_number(out, after_start, depth);
    let after_id = put_number(out, after_depth, unit.id);
    put_number(out, after_id, unit.action)
}

// The functions that are open are given a place that a u32 holds, so that the place behind their line is always a number. This one is
// given the unit's length.
pub fn put_line(out: &mut [u8], at: u32, depth: usize, unit: Unit, size: usize) -> usize
    ensures { Put out.old at (columns depth unit ++ decimal size ++ 10 ∷ []) out.new result }
{
    let after_columns = put_columns(out, at as usize, depth, unit);
    let after_size = put_decimal(out, after_columns, size);
    put_byte(out, after_size, b'\n')
}

pub fn put_ok(out: &mut [u8], at: u32, units: usize) -> usize
    ensures { Put out.old at (ok_line units) out.new result }
{
    let after_ok = put_bytes(out, at as usize, b"ok ");
    let after_units = put_decimal(out, after_ok, units);
    put_byte(out, after_units, b'\n')
}

pub fn put_refused(out: &mut [u8], number: usize, offset: usize) -> usize
    ensures { Put out.old 0 (refused_line number offset) out.new result }
{
    let after_refused = put_bytes(out, 0, b"refused ");
    let after_number = put_decimal(out, after_refused, number);
    let after_at = put_bytes(out, after_number, b" at ");
    let after_offset = put_decimal(out, after_at, offset);
    put_byte(out, after_offset, b'\n')
}
