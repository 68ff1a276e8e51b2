// Which of two values counts: the value of a field, by its template's name and first key, in the first of two streams that has it.
#![tactic(auto)]

ghost use Rattle.std.specs.Prelude.{◌+◌, ◌-◌, ◌≤◌, ◌≡◌, length};
ghost use Rattle.cdf_unit_prefix.specs.Layout.{layout_for};
ghost use Rattle.cdf_unit_list.specs.Units.{listing};
ghost use Rattle.cdf_lookup_spec.specs.Find.{is_group};
ghost use Rattle.cdf_lookup_spec.specs.Told.{answer_of};
ghost use Rattle.cdf_lookup_spec.specs.Chosen.{stream_of};
ghost use Rattle.cdf_lookup.specs.Answers.{due, Lends};

use cdf_lookup_search::{is_group as group_of, walk};
use cdf_lookup_spec::{Found, Query, Span, Which};
use cdf_reader::first as first_unit;
use cdf_refusal::{Fault, Refusal};

// Whether the root of s is an E/R group.
pub fn is_group(s: &[u8]) -> bool
    ensures { result ≡ is_group (listing (layout_for s.now) s.now).units }
{
    group_of(first_unit(s))
}

fn found_in(which: Which, value: Span) -> Found
    requires { value.start ≤ value.end }
    ensures { result ≡ record { which = which; start = value.start; size = value.end - value.start } }
{
    Found {
        which,
        start: value.start,
        size: value.end - value.start,
    }
}

// The value of a field in the first of two streams that has it, as numbers.
pub fn lookup_place(first: &[u8], second: &[u8], asked: Query) -> Result<Found, Fault>
    ensures is { answer_of result ≡ due first.entry second.entry asked.entry.template asked.entry.key_id asked.entry.key asked.entry.field }
    ensures within { (answer_of result).start + (answer_of result).size ≤ length (stream_of (answer_of result).which first.now second.now) }
{
    let one = walk(first, asked)?;
    let two = walk(second, asked)?;
    let grouped = one.group & two.group;
    if !grouped {
        return Err(Refusal::NotAdmitted.into());
    }
    match (one.value, two.value) {
        (Some(value), _) => Ok(found_in(Which::First, value)),
        (None, Some(value)) => Ok(found_in(Which::Second, value)),
        (None, None) => Err(Refusal::NoValue.into()),
    }
}

// The same value as a part of the stream that it stands in. A refusal's part is empty and begins where the first stream does.
pub fn lookup<'a>(first: &'a [u8], second: &'a [u8], asked: Query) -> &'a [u8]
    ensures { Lends (due first.entry second.entry asked.entry.template asked.entry.key_id asked.entry.key asked.entry.field) first.entry second.entry result }
{
    match lookup_place(first, second, asked) {
        Ok(found) => {
            let end = found.start + found.size;
            match found.which {
                Which::First => &first[found.start..end],
                Which::Second => &second[found.start..end],
            }
        }
        Err(_) => &first[..0],
    }
}
