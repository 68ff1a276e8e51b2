// Writing the answers.
ghost use Rattle.std.specs.Prelude.{◌≡◌, ◌≤◌, length, take};

use cdf_builder::Builder;
use cdf_builder_spec::Begun;
use std::io;

pub(crate) fn write_number(rt: &impl Print, letter: char, n: usize) -> io::Result<()> {
    print!(rt; " {letter}{n}")
}

fn write_open(rt: &impl Print, o: Begun) -> io::Result<()> {
    write_number(rt, 'U', o.state)?;
    write_number(rt, '@', o.start)
}

pub(crate) fn write_place(rt: &impl Print, p: Builder) -> io::Result<()> {
    write_number(rt, 'P', p.written)?;
    if p.units.count > 1 {
        write_open(rt, p.units.o1)?;
    }
    if p.units.count > 2 {
        write_open(rt, p.units.o2)?;
    }
    if p.units.count > 3 {
        write_open(rt, p.units.o3)?;
    }
    if p.units.count > 0 {
        write_open(rt, p.units.top)?;
    }
    Ok(())
}

// How many bytes there are before those at the end that are still EE.
fn changed(s: &[u8]) -> usize
    ensures within { result ≤ length s.now }
    ensures front { result ≡ length (take result s.now) }
{
    s.iter()
        .rposition(|&byte| byte != 0xEE)
        .map_or(0, |i| i + 1)
}

fn write_byte(rt: &impl Print, byte: u8) -> io::Result<()> {
    print!(rt; "{byte:02x}")
}

fn write_hex(rt: &impl Print, s: &[u8]) -> io::Result<()> {
    for &byte in s {
        write_byte(rt, byte)?;
    }
    Ok(())
}

// A prime below 2 to the 32.
const PRIME: u64 = 4294967291;

// The digits of a number in base 257, modulo the prime.
fn sum(s: &[u8]) -> u64 {
    s.iter()
        .fold(0, |h, &byte| (h % PRIME * 257 + byte as u64) % PRIME)
}

// All of the bytes, or of many a sum, the first 16 and the last 16.
fn write_bytes(rt: &impl Print, s: &[u8]) -> io::Result<()> {
    if s.len() <= 1024 {
        return write_hex(rt, s);
    }
    let n = s.len();
    print!(rt; "{} ", sum(s))?;
    write_hex(rt, &s[0..16])?;
    print!(rt; " ")?;
    write_hex(rt, &s[n - 16..])
}

pub(crate) fn write_buffer(rt: &impl Print, s: &[u8]) -> io::Result<()> {
    let n = changed(s);
    write_number(rt, 'W', n)?;
    write_number(rt, 'E', s.len() - n)?;
    print!(rt; " ")?;
    write_bytes(rt, &s[..n])?;
    println!(rt)
}
