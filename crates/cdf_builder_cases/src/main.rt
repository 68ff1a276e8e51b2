// Runs the builder on the cases that its input lists, and writes a line for each. `model/run build-inputs` writes the input, and
// `model/run build-answers` the output that is expected.
//
// A case is a line with its label and the size of its buffer, a line for each call, and a line with a dot. It begins with the empty
// place and a buffer of EE bytes. The calls, and a place to go on with:
//
//   S13           START with this root
//   N14 0 C38976  NEXT with this id, action and own data, which is in hexadecimal; *CCCCBB there is CCCC bytes, each BB
//   ACDF10010..   ADD_STREAM with these bytes
//   F             FINISH
//   P15 6 6 0 0 0 0 0 2 46
//                 the state and the start of the innermost open unit and of three around it, the outermost first; how many are
//                 open; how many bytes are written
//
// The output of a case, all in one line: the label; the letter and the number of each call, after FINISH also L and the length; after
// P the bytes written and, the outermost first, each open unit's state after U and its start after @; after W how many bytes the
// buffer has before those at its end that are still EE, after E how many these are; and the bytes before them: all, or of many a
// sum, the first 16 and the last 16. A line that cannot be read ends the program with the word error.
//
// A proved loop has to end, and nothing says that the input does. So each loop over the input has a number of turns that no run uses
// up.
#![tactic(auto)]

mod input;
mod output;

use crate::input::{Stop, next_byte, number, read_data};
use crate::output::{write_buffer, write_number, write_place};
use cdf_builder::{Builder, start};
use cdf_builder_spec::Begun;
use cdf_open_units::OpenUnits;
use cdf_refusal::Refusal;
use std::io::{self, Read};

// The functions named run_.. answer the place after a line. This writes what a call answered.
fn answered(
    rt: &impl Print,
    letter: char,
    given: Builder,
    answer: Result<Builder, Refusal>,
) -> Result<Builder, Stop> {
    let (number, place) = match answer {
        Ok(place) => (0, place),
        Err(refusal) => (refusal.number(), given),
    };
    write_number(rt, letter, number)?;
    Ok(place)
}

fn run_start(rt: &impl Print, input: &mut impl Read, buffer: &mut [u8]) -> Result<Builder, Stop> {
    let id = number(input, b'\n')?.ok_or(Stop::Unreadable)?;
    answered(rt, 'S', Builder::default(), start(buffer, id))
}

fn run_next(
    rt: &impl Print,
    input: &mut impl Read,
    buffer: &mut [u8],
    place: Builder,
) -> Result<Builder, Stop> {
    let id = number(input, b' ')?;
    let action = number(input, b' ')?;
    let mut data = [0u8; 65536];
    let n = read_data(input, &mut data)?;
    let id = id.ok_or(Stop::Unreadable)?;
    let action = action.ok_or(Stop::Unreadable)?;
    let n = n.ok_or(Stop::Unreadable)?;
    let data = data.get(..n).ok_or(Stop::Unreadable)?;
    answered(rt, 'N', place, place.next(buffer, id, action, data))
}

fn run_add_stream(
    rt: &impl Print,
    input: &mut impl Read,
    buffer: &mut [u8],
    place: Builder,
) -> Result<Builder, Stop> {
    let mut data = [0u8; 65536];
    let n = read_data(input, &mut data)?.ok_or(Stop::Unreadable)?;
    let data = data.get(..n).ok_or(Stop::Unreadable)?;
    answered(rt, 'A', place, place.add_stream(buffer, data))
}

// What FINISH answers is written, however its line ends.
fn run_finish(
    rt: &impl Print,
    input: &mut impl Read,
    buffer: &[u8],
    place: Builder,
) -> Result<Builder, Stop> {
    let c = next_byte(input)?;
    let (number, length) = match place.finish(buffer) {
        Ok(length) => (0, length),
        Err(refusal) => (refusal.number(), 0),
    };
    write_number(rt, 'F', number)?;
    write_number(rt, 'L', length)?;
    if c != b'\n' {
        return Err(Stop::Unreadable);
    }
    Ok(place)
}

fn read_open(input: &mut impl Read) -> io::Result<Option<Begun>> {
    let state = number(input, b' ')?;
    let start = number(input, b' ')?;
    let Some(state) = state else {
        return Ok(None);
    };
    let Some(start) = start else {
        return Ok(None);
    };
    Ok(Some(Begun { state, start }))
}

fn read_place(input: &mut impl Read) -> Result<Builder, Stop> {
    let top = read_open(input)?;
    let o1 = read_open(input)?;
    let o2 = read_open(input)?;
    let o3 = read_open(input)?;
    let count = number(input, b' ')?;
    let written = number(input, b'\n')?;
    Ok(Builder {
        written: written.ok_or(Stop::Unreadable)?,
        units: OpenUnits {
            count: count.ok_or(Stop::Unreadable)?,
            top: top.ok_or(Stop::Unreadable)?,
            o1: o1.ok_or(Stop::Unreadable)?,
            o2: o2.ok_or(Stop::Unreadable)?,
            o3: o3.ok_or(Stop::Unreadable)?,
        },
    })
}

// The line that begins with this letter.
fn run_line(
    rt: &impl Print,
    input: &mut impl Read,
    letter: u8,
    buffer: &mut [u8],
    place: Builder,
) -> Result<Builder, Stop> {
    match letter {
        b'S' => run_start(rt, input, buffer),
        b'N' => run_next(rt, input, buffer, place),
        b'A' => run_add_stream(rt, input, buffer, place),
        b'F' => run_finish(rt, input, buffer, place),
        b'P' => read_place(input),
        _ => Err(Stop::Unreadable),
    }
}

// Runs the lines up to the dot. What they left is written, however the dot's line ends.
fn run_lines(rt: &impl Print, input: &mut impl Read, buffer: &mut [u8]) -> Result<(), Stop> {
    let mut place = Builder::default();
    for _ in 0..u64::MAX {
        let c = next_byte(input)?;
        if c == b'.' {
            write_place(rt, place)?;
            write_buffer(rt, buffer)?;
            if next_byte(input)? != b'\n' {
                return Err(Stop::Unreadable);
            }
            return Ok(());
        }
        place = run_line(rt, input, c, buffer, place)?;
    }
    Err(Stop::Unreadable)
}

// Writes a label that begins with c, up to the space that ends it.
fn copy_label(rt: &impl Print, input: &mut impl Read, c: u8) -> Result<(), Stop> {
    let mut one = c;
    for _ in 0..u64::MAX {
        if one == b' ' {
            return Ok(());
        }
        if one == 0 {
            return Err(Stop::Unreadable);
        }
        rt.write_all(&[one])?;
        one = next_byte(input)?;
    }
    Err(Stop::Unreadable)
}

// Runs the case whose label begins with c.
fn run_case(rt: &impl Print, input: &mut impl Read, c: u8) -> Result<(), Stop> {
    copy_label(rt, input, c)?;
    let size = number(input, b'\n')?.ok_or(Stop::Unreadable)?;
    let mut space = [0xEEu8; 65536];
    let buffer = space.get_mut(..size).ok_or(Stop::Unreadable)?;
    run_lines(rt, input, buffer)
}

fn main(rt: HostRuntime) -> io::Result<()> {
    let mut input = rt.reader();
    for _ in 0..u64::MAX {
        let c = next_byte(&mut input)?;
        if c == 0 {
            break;
        }
        match run_case(&rt, &mut input, c) {
            Ok(()) => {}
            Err(Stop::Unreadable) => {
                println!(rt; " error")?;
                break;
            }
            Err(Stop::Failed(error)) => return Err(error),
        }
    }
    Ok(())
}
