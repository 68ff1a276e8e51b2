// What the pass of the import desk keeps of what it meets, and how it tells a rank.
#![tactic(auto)]

ghost use Rattle.std.specs.Prelude.{◌≡◌, set};
ghost use Rattle.cdf_resolve_spec.specs.Pass.{doubled_at, lacking_at, told_by};
ghost use Rattle.cdf_resolve_tally.specs.Told.{answer_of};

use cdf_refusal::{Fault, Refusal};
use cdf_resolve_spec::{Tally, Worst};

// A doubled template is met: the first is kept, and nothing but a crowd is graver.
#[tactic(auto, unfolding(cdf_resolve_spec::specs::Pass::doubled_at))]
pub fn doubled_at(worst: Worst, at: usize) -> Worst
    ensures { result ≡ doubled_at worst at }
{
    match worst {
        Worst::Fine | Worst::Lacking(_) => Worst::Doubled(at),
        Worst::Doubled(_) | Worst::Crowded => worst,
    }
}

// An entity key without a template is met: it is kept if nothing was met before.
#[tactic(auto, unfolding(cdf_resolve_spec::specs::Pass::lacking_at))]
pub fn lacking_at(worst: Worst, at: usize) -> Worst
    ensures { result ≡ lacking_at worst at }
{
    match worst {
        Worst::Fine => Worst::Lacking(at),
        Worst::Lacking(_) | Worst::Doubled(_) | Worst::Crowded => worst,
    }
}

// Writes a number where there is room. Of `get_mut` it is not said that the list stays where there is none.
pub fn put(list: &mut [u64], at: usize, number: usize)
    ensures { list.new ≡ set list.old at number }
{
    if at < list.len() {
        list[at] = number as u64;
    }
}

// What is answered by a tally of all units, and a list that has room for so many numbers.
#[tactic(auto, unfolding(cdf_resolve_spec::specs::Pass::told_by, cdf_refusal::specs::Numbers::number_of))]
pub fn told(t: Tally, room: usize) -> Result<usize, Fault>
    ensures { answer_of result ≡ told_by t.worst t.count room }
{
    match t.worst {
        Worst::Fine if room < t.count => Err(Refusal::NoRoom.into()),
        Worst::Fine => Ok(t.count),
        Worst::Lacking(offset) => Err(Fault {
            refusal: Refusal::NoTemplate,
            offset,
        }),
        Worst::Doubled(offset) => Err(Fault {
            refusal: Refusal::DoubledTemplate,
            offset,
        }),
        Worst::Crowded => Err(Refusal::TooManyTemplates.into()),
    }
}
