// What is done with one request of a list, and before and behind its two passes: all that the loop over the list calls.
#![tactic(auto)]

ghost use Rattle.std.specs.Prelude.{ℕ, ◌≡◌, true, false, cond, [], ◌%◌, eqb, ltb};
ghost use Rattle.std.specs.Result.{IfOk, IfErr};
ghost use Rattle.cdf_refusal.specs.Numbers.{number_of};
ghost use Rattle.cdf_unit_table.specs.Ids.{action_allowed};
ghost use Rattle.cdf_unit_table.specs.States.{some_state};
ghost use Rattle.cdf_unit_prefix.specs.Layout.{layout_of};
ghost use Rattle.cdf_unit_prefix.specs.declared.Edition.TheVariants.{First};
ghost use Rattle.cdf_grammar.specs.Encoding.{unit_bytes};
ghost use Rattle.cdf_builder_spec.specs.Calls.{write_of};
ghost use Rattle.cdf_builder_spec.specs.Told.{told};
ghost use Rattle.cdf_builder_append.specs.Held.{held};
ghost use Rattle.cdf_batch_spec.specs.Asking.{bounded};
ghost use Rattle.cdf_batch_turn.specs.Numbers.{viewed, parts_from, numbers_from};
ghost use Rattle.cdf_batch_turn.specs.Passes.{writes, part, within, begun_number, going, turned, turn_of, batched_of};

pub use crate::numbered::{second, told, turn};
use cdf_batch_spec::UnitRequest;
use cdf_builder_append::append_unit;
use cdf_builder_enter::enter;
use cdf_builder_faults::{own_fault, room};
use cdf_builder_fit::is_fit;
use cdf_builder_join::join;
use cdf_builder_spec::{Begun, Parts};
use cdf_open_units::OpenUnits;
use cdf_refusal::Refusal;
use cdf_unit_prefix::{Edition, limit, prefix};
use cdf_unit_table::{action_allowed, first_state, is_known};

mod numbered;

// The ten numbers of a builder's place: the bytes written; how many units are open; state and start of the innermost, then of the
// others from the root inwards. It is the struct of the C interface.
#[repr(C)]
#[derive(Clone, Copy)]
pub struct PlaceNumbers {
    pub written: usize,
    pub count: usize,
    pub state: usize,
    pub start: usize,
    pub state1: usize,
    pub start1: usize,
    pub state2: usize,
    pub start2: usize,
    pub state3: usize,
    pub start3: usize,
}

// What a list is told: the number, the rank of the request that it is of, and the new place. C's layout: the number is 0 or a refusal's.
#[repr(C)]
#[derive(Clone, Copy)]
pub struct Batched {
    pub number: usize,
    pub rank: usize,
    pub place: PlaceNumbers,
}

// A list is gone through twice: nothing is written before every request is judged. Two tests of a pass go by its name: a trait for them would be two
// impls of two functions.
#[derive(Clone, Copy)]
pub enum Pass {
    Judging,
    Writing,
}

// Why a list is refused, and the rank of the request that is.
#[derive(Clone, Copy)]
pub struct Refused {
    pub refusal: Refusal,
    pub rank: usize,
}

// Where a pass over the list stands, in numbers: whether it writes, the number of the first request that was refused with its rank, and the place.
#[derive(Clone, Copy)]
pub struct Ran {
    pub writing: bool,
    pub number: usize,
    pub rank: usize,
    pub place: PlaceNumbers,
}

// A list that is refused before any request is looked at.
impl From<Refusal> for Refused {
    ghost from_gives = { λ r e. e ≡ record { refusal = r; rank = 0 } };

    fn from(refusal: Refusal) -> Refused {
        Refused { refusal, rank: 0 }
    }
}

const MOST: usize = 512;

// What is told where more units would be open than there are slots: that the place does not fit.
const NO_SLOT: Refusal = Refusal::Place;

// The parts of the place that the numbers are,
impl From<PlaceNumbers> for Parts {
    ghost from_gives = { λ n p. p ≡ parts_from n };

    fn from(p: PlaceNumbers) -> Parts {
        Parts {
            written: p.written,
            units: OpenUnits {
                count: p.count,
                top: Begun {
                    state: p.state,
                    start: p.start,
                },
                o1: Begun {
                    state: p.state1,
                    start: p.start1,
                },
                o2: Begun {
                    state: p.state2,
                    start: p.start2,
                },
                o3: Begun {
                    state: p.state3,
                    start: p.start3,
                },
            },
        }
    }
}

// and the numbers of a place.
impl From<Parts> for PlaceNumbers {
    ghost from_gives = { λ p n. n ≡ numbers_from p };

    fn from(p: Parts) -> PlaceNumbers {
        PlaceNumbers {
            written: p.written,
            count: p.units.count,
            state: p.units.top.state,
            start: p.units.top.start,
            state1: p.units.o1.state,
            start1: p.units.o1.start,
            state2: p.units.o2.state,
            start2: p.units.o2.start,
            state3: p.units.o3.state,
            start3: p.units.o3.start,
        }
    }
}

// The part of the text that a request names, if its bounds are good: else OwnData, or Action where the action is not allowed.
fn own_of(r: UnitRequest, text: &[u8]) -> Result<&[u8], Refusal>
    ensures ok { IfOk result (λ own. (bounded text.now r ≡ true) × (own.now ≡ part text.now r)) }
    ensures err { IfErr result (λ e. (bounded text.now r ≡ false) × (number_of e ≡ cond (action_allowed r.id r.action) 9 8)) }
{
    let Some(own) = text.get(r.begin..r.end) else {
        if action_allowed(r.id, r.action) {
            return Err(Refusal::OwnData);
        }
        return Err(Refusal::Action);
    };
    Ok(own)
}

// What else is asked of a request that joins: Action, OwnData, TooLong, NoRoom. A pass that writes asks only what keeps it in bounds.
fn fault(pass: Pass, n: usize, written: usize, r: UnitRequest, own: &[u8]) -> Result<(), Refusal>
    ensures { told result ≡ within (layout_of First) (writes pass) n written r own.now }
{
    if limit(Edition::First) < written {
        return Err(Refusal::TooLong);
    }
    match pass {
        Pass::Writing => Ok(()),
        Pass::Judging => {
            let size = prefix(Edition::First) + own.len();
            own_fault(r.id, r.action, own)?;
            room(Edition::First, n, written + size)
        }
    }
}

// Whether more units would be open than there are slots: so many, and one more if it has a first state.
fn is_crowded(count: usize, first: Option<usize>) -> bool
    ensures { (k : ℕ) → first ≡ some_state k → result ≡ cond (eqb k 0) (ltb 4 count) (ltb 3 count) }
{
    match first {
        None => 4 < count,
        Some(_) => 3 < count,
    }
}

// Writes the unit and the lengths of those that are then open, in the pass that writes. Its promise is for any request, so the casts take % 256.
fn write(pass: Pass, buffer: &mut [u8], at: usize, p: Parts, r: UnitRequest, own: &[u8])
    ensures { buffer.new ≡ cond (writes pass)
        (write_of (layout_of First) at (held p) (unit_bytes (layout_of First) (r.id % 256) (r.action % 256) own.now []) buffer.old)
        buffer.old }
{
    if let Pass::Writing = pass {
        let id = (r.id % 256) as u8;
        let action = (r.action % 256) as u8;
        append_unit(Edition::First, buffer, at, p, id, action, own);
    }
}

// Before the first pass: whether the place fits, and whether there are not too many requests.
pub fn begun(place: PlaceNumbers, n: usize, count: usize) -> Result<(), Refusal>
    ensures { told result ≡ begun_number place n count }
{
    if !is_fit(Edition::First, n, Parts::from(place)) {
        return Err(Refusal::Place);
    }
    if MOST < count {
        return Err(Refusal::TooManyRequests);
    }
    Ok(())
}

// A request, of any rank: judged in the first pass, written in the second. Whether the place fits is not asked: it did before the first
// pass, and a request that is taken leaves one that does.
pub fn take(
    pass: Pass,
    place: PlaceNumbers,
    buffer: &mut [u8],
    r: UnitRequest,
    text: &[u8],
) -> Result<PlaceNumbers, Refusal>
    ensures { (rank : ℕ) → turned (writes pass) (viewed place) rank result buffer.new
        ≡ turn_of (layout_of First) text.now (going (writes pass) (viewed place) buffer.old) rank r }
{
    let p = Parts::from(place);
    if !is_known(r.id) {
        return Err(Refusal::UnknownId);
    }
    let left = join(r.id, p.units)?;
    let own = own_of(r, text)?;
    fault(pass, buffer.len(), p.written, r, own)?;
    let first = first_state(r.id);
    if is_crowded(left.count, first) {
        return Err(NO_SLOT);
    }
    let size = prefix(Edition::First) + own.len();
    let after = enter(p, left, p.written + size, first);
    write(pass, buffer, p.written, after, r, own);
    Ok(PlaceNumbers::from(after))
}

// Behind the second pass: beside a refusal the place that was given.
pub fn tell_batch(given: PlaceNumbers, built: Result<PlaceNumbers, Refused>) -> Batched
    ensures { result ≡ batched_of given built }
{
    match built {
        Ok(place) => Batched {
            number: 0,
            rank: 0,
            place,
        },
        Err(refused) => Batched {
            number: refused.refusal.number(),
            rank: refused.rank,
            place: given,
        },
    }
}
