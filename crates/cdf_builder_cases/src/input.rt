// Reading the cases.
ghost use Rattle.std.specs.Prelude.{◌<◌, IfSome};

use std::io::{self, Read};

// Why the cases end before the input does: a line that cannot be read, or input or output that fails.
#[derive(Debug, Drop)]
pub(crate) enum Stop {
    Unreadable,
    Failed(io::Error),
}

impl From<io::Error> for Stop {
    fn from(error: io::Error) -> Stop {
        Stop::Failed(error)
    }
}

// The next byte of the input, or 0 at its end: a zero byte ends it too, as it always did. This, `digit` and the copying of a label stand twice, here
// and in the check's cases: a crate for three functions of a few lines is not plainer, and there a bad digit is answered otherwise.
pub(crate) fn next_byte(input: &mut impl Read) -> io::Result<u8> {
    input.bytes().next().unwrap_or(Ok(0))
}

// What a digit stands for.
fn digit(c: u8) -> Option<usize>
    ensures { IfSome result (λ d. d < 16) }
{
    match c {
        b'0'..=b'9' => Some((c - b'0') as usize),
        b'A'..=b'F' => Some((c - b'A') as usize + 10),
        _ => None,
    }
}

// A number with a digit more.
fn longer(n: usize, c: u8) -> Option<usize> {
    let d = digit(c)?;
    if d > 9 || n > 999999999999999999 {
        return None;
    }
    Some(n * 10 + d)
}

// The decimal number that stands before this byte, of 19 digits at most. What cannot be read is none: a line is read on, as far as its fields
// tell where it ends, before it is judged.
pub(crate) fn number(input: &mut impl Read, end: u8) -> io::Result<Option<usize>> {
    let mut n = 0;
    for _ in 0..20 {
        let c = next_byte(input)?;
        if c == end {
            return Ok(Some(n));
        }
        let Some(more) = longer(n, c) else {
            return Ok(None);
        };
        n = more;
    }
    Ok(None)
}

// The byte of two digits.
fn byte_of(high: u8, low: u8) -> Option<u8> {
    Some((digit(high)? * 16 + digit(low)?) as u8)
}

// The byte whose first digit is c.
fn byte_at(input: &mut impl Read, c: u8) -> io::Result<Option<u8>> {
    let low = next_byte(input)?;
    Ok(byte_of(c, low))
}

// The byte whose digits come next.
fn two_digits(input: &mut impl Read) -> io::Result<Option<u8>> {
    let c = next_byte(input)?;
    byte_at(input, c)
}

// The functions named put_.. put bytes behind the first n of s, which is lent fixed memory, and return how many there are then.
fn put_byte(s: &mut [u8], n: usize, byte: Option<u8>) -> Option<usize> {
    *s.get_mut(n)? = byte?;
    Some(n + 1)
}

// A run of none asks no byte.
fn put_run(s: &mut [u8], n: usize, count: usize, byte: Option<u8>) -> Option<usize> {
    let mut end = n;
    for _ in 0..count {
        end = put_byte(s, end, byte)?;
    }
    Some(end)
}

// The run whose `*` was read. That its byte cannot be read is nothing to a run of none.
fn put_counted(input: &mut impl Read, s: &mut [u8], n: usize) -> io::Result<Option<usize>> {
    let high = two_digits(input)?;
    let low = two_digits(input)?;
    let byte = two_digits(input)?;
    let Some(high) = high else {
        return Ok(None);
    };
    let Some(low) = low else {
        return Ok(None);
    };
    Ok(put_run(s, n, high as usize * 256 + low as usize, byte))
}

// The byte whose first digit is c, or the run whose `*` it is.
fn put_next(input: &mut impl Read, s: &mut [u8], n: usize, c: u8) -> io::Result<Option<usize>> {
    if c == b'*' {
        return put_counted(input, s, n);
    }
    let byte = byte_at(input, c)?;
    Ok(put_byte(s, n, byte))
}

// Puts the bytes of the rest of a line into s, and returns how many there are.
pub(crate) fn read_data(input: &mut impl Read, s: &mut [u8]) -> io::Result<Option<usize>> {
    let mut n = 0;
    for _ in 0..u64::MAX {
        let c = next_byte(input)?;
        if c == b'\n' {
            return Ok(Some(n));
        }
        let Some(more) = put_next(input, s, n, c)? else {
            return Ok(None);
        };
        n = more;
    }
    Ok(None)
}
