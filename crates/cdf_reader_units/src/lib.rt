// Many units in a call: NEXTs as long as the list has room, after one test of the place.
#![tactic(auto)]

ghost use Rattle.std.specs.Prelude.{◌≡◌, true, length};
ghost use Rattle.cdf_unit_prefix.specs.Layout.{edition_of, layout_for};
ghost use Rattle.cdf_reader_spec.specs.Place.{fits};
ghost use Rattle.cdf_reader.specs.View.{view};
ghost use Rattle.cdf_reader_units.specs.Filling.{unit_numbers, told_of, Fills};

use cdf_reader::Place;
use cdf_reader_step::is_fit;
use cdf_refusal::{Fault, Refusal};
use cdf_unit_list::Ranked;
use cdf_unit_own::row::NAME_BYTES;
use cdf_unit_prefix::{Edition, edition_of};

// What the call answers beside the units in the list: how many there are, and the new place.
#[derive(Clone, Copy)]
pub struct Filled {
    pub count: usize,
    pub place: Place,
}

// Writes the numbers of a unit, each straight into the list: an array that is copied there costs a tenth more.
#[inline]
fn write_unit(entry: &mut [u64], handed: Ranked)
    requires { length entry.old ≡ 7 }
    ensures { entry.new ≡ unit_numbers handed }
{
    entry[0] = handed.unit.id as u64;
    entry[1] = handed.unit.action as u64;
    entry[2] = handed.unit.start as u64;
    entry[3] = handed.unit.own as u64;
    entry[4] = handed.unit.end as u64;
    entry[5] = handed.depth as u64;
    entry[6] = handed.rank as u64;
}

// NEXTs from a place that fits. What ends them is told where no unit was handed out.
fn run(p: Place, edition: Edition, s: &[u8], list: &mut [u64]) -> Result<Filled, Fault>
    requires { (edition ≡ edition_of s.now) × (fits (layout_for s.now) (length s.now) (view p) ≡ true) }
    ensures { Fills s.now p list.old (told_of p result) list.new }
{
    let row = NAME_BYTES;
    let room = list.len() / 7;
    let mut place = p;
    for count in 0..room {
        match place.advance(&row, edition, s) {
            Ok(a) => {
                write_unit(&mut list[7 * count..7 * count + 7], a.handed);
                place = a.place;
            }
            Err(fault) => {
                if count == 0 {
                    return Err(fault);
                }
                return Ok(Filled { count, place });
            }
        }
    }
    Ok(Filled { count: room, place })
}

// Fills the front of the list with units, seven numbers each. Refused as NEXT is: then there is no unit, and the place stays.
pub fn fill(p: Place, s: &[u8], list: &mut [u64]) -> Result<Filled, Fault>
    ensures { Fills s.now p list.old (told_of p result) list.new }
{
    if p.units.count == 0 {
        return Err(Refusal::NoUse.at(0));
    }
    let edition = edition_of(s);
    if !is_fit(p.cursor(), edition, s.len()) {
        return Err(Refusal::Place.at(0));
    }
    run(p, edition, s, list)
}
