// A place as plain numbers, as they cross to C: 25 of them; an answer is 10, which `cdf_reader_call_numbers` writes.
#![tactic(auto)]

ghost use Rattle.std.specs.Prelude.{◌≡◌, ◌+◌, ◌≤◌};
ghost use Rattle.cdf_reader_numbers.specs.Numbers.{open_from, place_from, numbers_of};
ghost use Rattle.cdf_reader_numbers.specs.Taking.{part_is, part_by};

use cdf_open_units::OpenUnits;
use cdf_reader::Place;
use cdf_reader_spec::{Call, Ranks};
use cdf_unit_list::{Open, Unit};

// The open unit with this state, start and end.
#[inline]
pub fn open_of(state: u64, start: u64, end: u64) -> Open
    ensures { result ≡ record { state = state; start = start; end = end } }
{
    Open {
        state: state as usize,
        start: start as usize,
        end: end as usize,
    }
}

// The last unit.
#[inline]
pub fn last_of(a: &[u64; 25]) -> Unit
    ensures { result ≡ (place_from a.now).last }
{
    Unit {
        id: a[14] as usize,
        action: a[15] as usize,
        start: a[16] as usize,
        own: a[17] as usize,
        end: a[18] as usize,
    }
}

// The place that the numbers are. Not a `From`: neither the struct nor the array is of this crate.
pub fn place_from(a: &[u64; 25]) -> Place
    ensures { result ≡ place_from a.now }
{
    Place {
        position: a[0] as usize,
        units: OpenUnits {
            count: a[1] as usize,
            top: open_of(a[2], a[3], a[4]),
            o1: open_of(a[5], a[6], a[7]),
            o2: open_of(a[8], a[9], a[10]),
            o3: open_of(a[11], a[12], a[13]),
        },
        last: last_of(a),
        fresh: a[19] != 0,
        ranks: Ranks {
            top: a[20] as usize,
            r1: a[21] as usize,
            r2: a[22] as usize,
            r3: a[23] as usize,
            last: a[24] as usize,
        },
    }
}

// Writes the numbers of a place.
pub fn write_place(p: Place, a: &mut [u64; 25])
    ensures { a.new ≡ numbers_of p }
{
    *a = [
        p.position as u64,
        p.units.count as u64,
        p.units.top.state as u64,
        p.units.top.start as u64,
        p.units.top.end as u64,
        p.units.o1.state as u64,
        p.units.o1.start as u64,
        p.units.o1.end as u64,
        p.units.o2.state as u64,
        p.units.o2.start as u64,
        p.units.o2.end as u64,
        p.units.o3.state as u64,
        p.units.o3.start as u64,
        p.units.o3.end as u64,
        p.last.id as u64,
        p.last.action as u64,
        p.last.start as u64,
        p.last.own as u64,
        p.last.end as u64,
        p.fresh as u64,
        p.ranks.top as u64,
        p.ranks.r1 as u64,
        p.ranks.r2 as u64,
        p.ranks.r3 as u64,
        p.ranks.last as u64,
    ];
}

// A part of the stream.
#[derive(Clone, Copy, Default)]
pub struct Part {
    pub start: usize,
    pub size: usize,
}

impl Part {
    // The part that goes with a call and its number: of the last unit, where it is taken. It is promised for any number, though callers
    // have 0. The test is one: the replay's loop is faster so.
    #[inline]
    pub fn of(call: Call, number: usize, last: Unit) -> Part
        ensures { part_is result ≡ part_by call number last.start last.end }
    {
        if !(matches!(call, Call::GetStream) & (number == 0)) {
            return Part::default();
        }
        Part {
            start: last.start,
            size: last.end.saturating_sub(last.start),
        }
    }
}
