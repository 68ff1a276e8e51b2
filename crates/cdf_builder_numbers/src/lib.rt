// The numbers that a builder's place is in C: read, written, and stored where a call is done.
#![tactic(auto)]

ghost use Rattle.std.specs.Prelude.{◌≡◌, ◌+◌, ◌<◌, cond, eqb};
ghost use Rattle.cdf_builder_spec.specs.Told.{told};
ghost use Rattle.cdf_builder_numbers.specs.Numbers.{begun_from, builder_from, numbers_of, stored};

use cdf_builder::Builder;
use cdf_builder_spec::Begun;
use cdf_open_units::OpenUnits;
use cdf_refusal::Refusal;

// What a call answers, in numbers: any number, and the new place.
#[derive(Clone, Copy)]
pub struct Built {
    pub number: usize,
    pub place: Builder,
}

// The open unit whose state and start stand there.
fn begun_at(a: &[u64; 10], at: usize) -> Begun
    requires { at < 9 }
    ensures { result ≡ begun_from a.now at (at + 1) }
{
    Begun {
        state: a[at] as usize,
        start: a[at + 1] as usize,
    }
}

// The place that the numbers are. Not a `From`: neither the struct nor the array is of this crate.
pub fn builder_from(a: &[u64; 10]) -> Builder
    ensures { result ≡ builder_from a.now }
{
    Builder {
        written: a[0] as usize,
        units: OpenUnits {
            count: a[1] as usize,
            top: begun_at(a, 2),
            o1: begun_at(a, 4),
            o2: begun_at(a, 6),
            o3: begun_at(a, 8),
        },
    }
}

// Writes the numbers of a place.
pub fn write_builder(p: Builder, a: &mut [u64; 10])
    ensures { a.new ≡ numbers_of p }
{
    *a = [
        p.written as u64,
        p.units.count as u64,
        p.units.top.state as u64,
        p.units.top.start as u64,
        p.units.o1.state as u64,
        p.units.o1.start as u64,
        p.units.o2.state as u64,
        p.units.o2.start as u64,
        p.units.o3.state as u64,
        p.units.o3.start as u64,
    ];
}

// Writes the place that a call answers, and returns the number that it tells.
pub fn store_answer(answer: Result<Builder, Refusal>, place: &mut [u64; 10]) -> u64
    ensures number { result ≡ told answer }
    ensures place { place.new ≡ stored answer place.old }
{
    match answer {
        Ok(p) => {
            write_builder(p, place);
            0
        }
        Err(refusal) => refusal.number() as u64,
    }
}

// The same by any number: writes the place of an answer whose number is 0, and returns the number.
pub fn store(built: Built, place: &mut [u64; 10]) -> u64
    ensures number { result ≡ built.number }
    ensures place { place.new ≡ cond (eqb built.number 0) (numbers_of built.place) place.old }
{
    if built.number != 0 {
        return built.number as u64;
    }
    write_builder(built.place, place);
    0
}
