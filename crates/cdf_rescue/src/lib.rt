// The rescue of a broken E/R group, from lent bytes into a lent buffer.
#![tactic(auto)]

ghost use Rattle.std.specs.Prelude.{◌≡◌, ◌≤◌, length, IfSome, false};
ghost use Rattle.cdf_unit_prefix.specs.Layout.{layout_of, prefix_of};
ghost use Rattle.cdf_unit_prefix.specs.Rules.{head_of};
ghost use Rattle.cdf_unit_prefix.specs.declared.Edition.TheVariants.{First};
ghost use Rattle.cdf_builder_write.specs.Patch.{patch};
ghost use Rattle.cdf_rescue_spec.specs.Salvage.{whole_at, group_of, rescue_of};
ghost use Rattle.cdf_rescue.specs.Numbers.{told_of, report_of};
ghost use Rattle.cdf_rescue.specs.Parts.{IsWhole, is_headed, Gap, Span, Scanned, kept_of, Kept};

use cdf_builder_write::{write_bytes, write_length, write_unit};
use cdf_check::check_nested;
use cdf_refusal::Refusal;
use cdf_rescue_spec::Run;
use cdf_unit_prefix::{Edition, head, limit, prefix};
use cdf_unit_table::{ER_GROUP, ER_NEW, state_after};

// What a rescue tells: how many bytes the group has; how many runs were dropped, and these, as C is given them. Entries that are not used are of zeros.
#[derive(Clone, Copy, Debug, PartialEq, Eq)]
pub struct Report {
    pub size: usize,
    pub count: usize,
    pub runs: [Run; 64],
}

// What a scan found: how many bytes are kept, and the dropped runs.
#[derive(Clone, Copy)]
struct Found {
    kept: usize,
    count: usize,
    runs: [Run; 64],
}

// The length of the unit that stands whole at the front of s and that an E/R group may hold, if there is one. Its prefix tells the
// length, and the check alone judges it.
fn whole_at(edition: Edition, s: &[u8]) -> Option<usize>
    ensures is { IsWhole (whole_at (layout_of edition) s.now) result }
    ensures within { IfSome result (λ n. n ≤ length s.now) }
{
    let Ok(header) = head(edition, false, s) else {
        return None;
    };
    match check_nested(edition, ER_NEW, s) {
        Err(_) => None,
        Ok(_) => Some(header.length),
    }
}

// Whether a prefix stands at the front of s that keeps the rules 3 to 7 in an E/R group. It stands at few bytes, so the scan asks for it first.
fn is_headed(edition: Edition, s: &[u8]) -> bool
    ensures { result ≡ is_headed (head_of (layout_of edition) false s.now) }
{
    let Ok(front) = head(edition, false, s) else {
        return false;
    };
    state_after(ER_NEW, front.id).is_some()
}

// The first byte of the mark, in either edition.
const MARK: u8 = 0xCD;

// Where the next unit stands whole, from a position on; the end where none does. Most bytes are passed by the mark's first byte alone.
fn next_whole(edition: Edition, s: &[u8], from: usize) -> usize
    requires { from ≤ length s.now }
    ensures { Gap (layout_of edition) s.now from result }
{
    for at in from..s.len() {
        if s[at] == MARK && is_headed(edition, &s[at..]) && whole_at(edition, &s[at..]).is_some() {
            return at;
        }
    }
    s.len()
}

// Where whole units that stand one behind the other, from a position on, end. Each begins where the one before it ends.
fn last_whole(edition: Edition, s: &[u8], from: usize) -> usize
    requires { from ≤ length s.now }
    ensures { Span (layout_of edition) s.now from result }
{
    let mut at = from;
    while let Some(length) = whole_at(edition, &s[at..]) {
        at += length;
    }
    at
}

// All that is dropped, and how much is kept; or that there are more runs than entries. It goes from run to run by what is found, so they are
// counted and not gone over.
fn scan(edition: Edition, s: &[u8]) -> Result<Found, Refusal>
    requires { prefix_of (layout_of edition) ≤ length s.now }
    ensures { Scanned (layout_of edition) s.now result }
{
    let first = prefix(edition);
    let mut at = last_whole(edition, s, first);
    let mut kept = at - first;
    let mut count = 0;
    let mut runs = [Run::default(); 64];
    while at < s.len() {
        if count == 64 {
            return Err(Refusal::TooManyRuns);
        }
        let start = next_whole(edition, s, at);
        runs[count] = Run {
            from: at,
            to: start,
        };
        count += 1;
        at = last_whole(edition, s, start);
        kept += at - start;
    }
    Ok(Found { kept, count, runs })
}

// Writes an E/R group of what is kept: what stands between the runs, and the prefix before it.
fn write_group(edition: Edition, s: &[u8], out: &mut [u8], runs: &[Run])
    requires { Kept (layout_of edition) s.now runs.now (length out.old) }
    ensures { out.new ≡ patch 0 (group_of (layout_of edition) (kept_of (layout_of edition) s.now)) out.old }
{
    let mut at = prefix(edition);
    let mut place = at;
    for run in runs {
        write_bytes(out, place, &s[at..run.from]);
        place += run.from - at;
        at = run.to;
    }
    write_bytes(out, place, &s[at..]);
    write_unit(edition, out, 0, ER_GROUP as u8, 0, &[]);
    write_length(edition, out, 0, place + (s.len() - at));
}

// Rescues an E/R group of this edition into a buffer, which a refusal leaves as it is: too short, nothing kept, too many runs, too
// long, no room.
pub fn rescue_as(edition: Edition, s: &[u8], out: &mut [u8]) -> Result<Report, Refusal>
    ensures is { told_of result ≡ report_of (rescue_of (layout_of edition) (length out.old) s.now) }
    ensures bytes { out.new ≡ patch 0 (rescue_of (layout_of edition) (length out.old) s.now).group
        out.old }
{
    let first = prefix(edition);
    if s.len() < first {
        return Err(Refusal::Short);
    }
    let found = scan(edition, s)?;
    if found.kept == 0 {
        return Err(Refusal::NothingKept);
    }
    let size = first + found.kept;
    if limit(edition) < size {
        return Err(Refusal::TooLong);
    }
    if out.len() < size {
        return Err(Refusal::NoRoom);
    }
    write_group(edition, s, out, &found.runs[..found.count]);
    Ok(Report {
        size,
        count: found.count,
        runs: found.runs,
    })
}

// Rescues an E/R group of the first edition.
pub fn rescue(s: &[u8], out: &mut [u8]) -> Result<Report, Refusal>
    ensures is { told_of result ≡ report_of (rescue_of (layout_of First) (length out.old) s.now) }
    ensures bytes { out.new ≡ patch 0 (rescue_of (layout_of First) (length out.old) s.now).group
        out.old }
{
    rescue_as(Edition::First, s, out)
}
