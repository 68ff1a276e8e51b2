// Checks the streams that its input lists, and writes a line for each: the label, then the number
// that the check gives and the count of units or the offset that goes with it.
//
// A line of the input is a label, a colon, and the stream's bytes in hexadecimal, where *DDDDCCCC
// stands for CCCC bytes, each like the one DDDD before it. `model/run inputs` writes the
// input, and `model/run answers` the output that is expected.
//
// A proved loop has to end, and nothing says that the input does. So each loop has a number of
// turns that no run uses up.
#![tactic(auto)]

ghost use Rattle.std.specs.Prelude.{◌≤◌, ◌<◌, length, IfOk};

use std::io::{self, Read};

// The next byte of the input, or 0 at its end: a zero byte ends it too, as it always did here, so this is no option.
fn next_byte(input: &mut impl Read) -> io::Result<u8> {
    input.bytes().next().unwrap_or(Ok(0))
}

// What a hexadecimal digit stands for. `to_digit` takes small letters too, which stand for 0 here.
fn digit(c: u8) -> usize
    ensures { result < 16 }
{
    match c {
        b'0'..=b'9' => (c - b'0') as usize,
        b'A'..=b'F' => (c - b'A') as usize + 10,
        _ => 0,
    }
}

// The number that the next four digits write.
fn four_digits(input: &mut impl Read) -> io::Result<usize> {
    let high = digit(next_byte(input)?) * 16 + digit(next_byte(input)?);
    let low = digit(next_byte(input)?) * 16 + digit(next_byte(input)?);
    Ok(high * 256 + low)
}

// The functions named put_.. add bytes to the first n of s, as far as there is room, and return how
// many there are then. This one adds a byte like the one `back` before it.
fn put_like(s: &mut [u8], n: usize, back: usize) -> usize
    requires { n ≤ length s.old }
    ensures { result ≤ length s.old }
{
    if n < back || n == s.len() {
        return n;
    }
    s[n] = s[n - back];
    n + 1
}

// Adds `count` such bytes.
fn put_repeat(s: &mut [u8], n: usize, back: usize, count: usize) -> usize
    requires { n ≤ length s.old }
    ensures { result ≤ length s.old }
{
    let mut end = n;
    for _ in 0..count {
        end = put_like(s, end, back);
    }
    end
}

// Adds the byte whose first digit is c, or the bytes of a repeat whose `*` it is.
fn put_next(input: &mut impl Read, s: &mut [u8], n: usize, c: u8) -> io::Result<usize>
    requires { n ≤ length s.old }
    ensures { IfOk result (λ end. end ≤ length s.old) }
{
    if c == b'*' {
        let back = four_digits(input)?;
        return Ok(put_repeat(s, n, back, four_digits(input)?));
    }
    let byte = digit(c) * 16 + digit(next_byte(input)?);
    if n == s.len() {
        return Ok(n);
    }
    s[n] = byte as u8;
    Ok(n + 1)
}

// Puts the bytes of a line into s, and returns how many there are. A stream of 65,536 bytes and the
// line's end take 65,537 turns.
fn read_stream(input: &mut impl Read, s: &mut [u8]) -> io::Result<usize>
    ensures { IfOk result (λ n. n ≤ length s.old) }
{
    let mut n = 0;
    for _ in 0..65537 {
        let c = next_byte(input)?;
        if c == b'\n' {
            return Ok(n);
        }
        n = put_next(input, s, n, c)?;
    }
    Ok(n)
}

// Writes a line's label, and answers whether there is one.
fn copy_label(rt: &impl Print, input: &mut impl Read) -> io::Result<bool> {
    for _ in 0..u64::MAX {
        let c = next_byte(input)?;
        if c == 0 {
            return Ok(false);
        }
        if c == b':' {
            return Ok(true);
        }
        rt.write_all(&[c])?;
    }
    Ok(false)
}

fn check_stream(rt: &impl Print, s: &[u8]) -> io::Result<()> {
    let (number, value) = match cdf_check::check(s) {
        Ok(units) => (0, units),
        Err(fault) => (fault.refusal.number(), fault.offset),
    };
    println!(rt; " {number} {value}")
}

// Checks the stream of one line, and answers whether there was one.
fn check_line(rt: &impl Print, input: &mut impl Read) -> io::Result<bool> {
    if !copy_label(rt, input)? {
        return Ok(false);
    }
    let mut s = [0u8; 65536];
    let n = read_stream(input, &mut s)?;
    check_stream(rt, &s[..n])?;
    Ok(true)
}

fn main(rt: HostRuntime) -> io::Result<()> {
    let mut input = rt.reader();
    for _ in 0..u64::MAX {
        if !check_line(&rt, &mut input)? {
            break;
        }
    }
    Ok(())
}
