// A start and nexts to the end of a stream, each next given the place that the last call returned, folded into one number: what the
// benchmark of the reader runs.
#![tactic(auto)]

ghost use Rattle.std.specs.Prelude.{◌≡◌};
ghost use Rattle.cdf_refusal.specs.Numbers.{number_of};
ghost use Rattle.cdf_unit_prefix.specs.Layout.{layout_for};
ghost use Rattle.cdf_reader_walk.specs.Fold.{mix_of, mix_end, walk_of};

use cdf_reader::first_as;
use cdf_refusal::Fault;
use cdf_unit_list::Ranked;
use cdf_unit_own::row::NAME_BYTES;
use cdf_unit_prefix::edition_of;

// One more unit.
fn mix(h: u64, handed: Ranked) -> u64
    ensures { result ≡ mix_of h handed }
{
    let u = handed.unit;
    let turned = (h << 5) | (h >> 59);
    let bounds = (u.start as u64) ^ ((u.own as u64) << 16) ^ ((u.end as u64) << 32);
    let standing = ((handed.depth as u64) << 52) ^ ((handed.rank as u64) << 8);
    turned ^ bounds ^ ((u.id as u64) << 48) ^ ((u.action as u64) << 56) ^ standing
}

// The refusal that ends the run, and its offset.
fn mix_end(h: u64, fault: Fault) -> u64
    ensures { result ≡ mix_end h (number_of fault.refusal) fault.offset }
{
    h ^ ((fault.refusal.number() as u64) << 57) ^ ((fault.offset as u64) << 3)
}

// The refusal that ends the loop is what is told.
#[unsafe(no_mangle)]
pub extern "C" fn cdf_walk(s: &[u8]) -> u64
    ensures { result ≡ walk_of (layout_for s.now) s.now }
{
    let row = NAME_BYTES;
    let edition = edition_of(s);
    let mut next = first_as(edition, s);
    let mut h: u64 = 0;
    loop {
        match next {
            Ok(a) => {
                h = mix(h, a.handed);
                next = a.place.advance(&row, edition, s);
            }
            Err(fault) => return mix_end(h, fault),
        }
    }
}
