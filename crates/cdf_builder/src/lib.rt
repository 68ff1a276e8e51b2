// The builder: a place goes in with each call and a new one comes back; the buffer is lent.
#![tactic(auto)]

ghost use Rattle.std.specs.Prelude.{◌≡◌, length};
ghost use Rattle.cdf_unit_prefix.specs.Layout.{layout_of};
ghost use Rattle.cdf_unit_prefix.specs.declared.Edition.TheVariants.{First};
ghost use Rattle.cdf_builder_spec.specs.Requests.{unit, group};
ghost use Rattle.cdf_builder_spec.specs.Calls.{start_of, decide_of, call_of, finish_of};
ghost use Rattle.cdf_builder.specs.View.{view, decision_of, reply_of, finished_of, no_builder};
ghost use Rattle.cdf_builder.specs.Held.{parts_of, builder_of};

use cdf_builder_calls::{add_stream_as, next_as, start_as};
use cdf_builder_decide::decide_unit;
use cdf_builder_fit::is_fit;
use cdf_builder_join::is_completed;
use cdf_builder_spec::{Begun, Parts};
use cdf_open_units::OpenUnits;
use cdf_refusal::Refusal;
use cdf_unit_prefix::Edition;

// Where a builder is: how many bytes are written, and the open units. Which place of the format this is, its view says.
#[derive(Clone, Copy, Default)]
pub struct Builder {
    pub written: usize,
    pub units: OpenUnits<Begun>,
}

impl From<Parts> for Builder {
    ghost from_gives = { λ p b. b ≡ builder_of p };

    fn from(p: Parts) -> Builder {
        Builder {
            written: p.written,
            units: p.units,
        }
    }
}

impl From<Builder> for Parts {
    ghost from_gives = { λ b p. p ≡ parts_of b };

    fn from(b: Builder) -> Parts {
        Parts {
            written: b.written,
            units: b.units,
        }
    }
}

impl Builder {
    // DECIDE: what NEXT will answer with a buffer of n bytes, before a byte is written.
    pub fn decide(self, n: usize, id: usize, action: usize, data: &[u8]) -> Result<Builder, Refusal>
        ensures { decision_of self result
            ≡ decide_of (layout_of First) n (view self) (unit (record { id = id; action = action; text = «data».now })) }
    {
        let place = decide_unit(Edition::First, n, Parts::from(self), id, action, data)?;
        Ok(Builder::from(place))
    }

    // NEXT: adds a unit, of this id, action and own data.
    pub fn next(
        self,
        buffer: &mut [u8],
        id: usize,
        action: usize,
        data: &[u8],
    ) -> Result<Builder, Refusal>
        ensures { reply_of self result buffer.new
            ≡ call_of (layout_of First) buffer.old (view self) (unit (record { id = id; action = action; text = «data».now })) }
    {
        let place = next_as(Edition::First, buffer, Parts::from(self), id, action, data)?;
        Ok(Builder::from(place))
    }

    // ADD_STREAM: adds a group that the check accepts.
    pub fn add_stream(self, buffer: &mut [u8], bytes: &[u8]) -> Result<Builder, Refusal>
        ensures { reply_of self result buffer.new
            ≡ call_of (layout_of First) buffer.old (view self) (group bytes.now) }
    {
        let place = add_stream_as(Edition::First, buffer, Parts::from(self), bytes)?;
        Ok(Builder::from(place))
    }

    // FINISH: a place that does not fit, an incomplete unit, and else the length of the stream. Building may go on after it.
    pub fn finish(self, buffer: &[u8]) -> Result<usize, Refusal>
        ensures { finished_of result ≡ finish_of (layout_of First) (length buffer.now) (view self) }
    {
        if !is_fit(Edition::First, buffer.len(), Parts::from(self)) {
            return Err(Refusal::Place);
        }
        if !is_completed(self.units) {
            return Err(Refusal::Incomplete);
        }
        Ok(self.written)
    }
}

// START, for streams of the first edition: writes the prefix of a root of this id.
pub fn start(buffer: &mut [u8], root: usize) -> Result<Builder, Refusal>
    ensures { reply_of no_builder result buffer.new ≡ start_of (layout_of First) buffer.old root }
{
    let place = start_as(Edition::First, buffer, root)?;
    Ok(Builder::from(place))
}
