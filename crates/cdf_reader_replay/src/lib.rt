// A run of a reader's calls, by their codes, into a log. The loop keeps a cursor; each that it holds is empty or was returned with 0, and so
// fits: the reader's own calls test no place.
#![tactic(auto)]

ghost use Rattle.std.specs.Prelude.{◌≡◌, ℕ, Some, None, cond, List, [], ◌∷◌, map, ◌*◌, ◌≤◌, length};
ghost use Rattle.cdf_unit_prefix.specs.Layout.{Layout, edition_of, layout_of, layout_for};
ghost use Rattle.cdf_unit_data.specs.Standing.{name_row, row_bytes};
ghost use Rattle.cdf_reader_spec.specs.Calls.{Reply, call_of};
ghost use Rattle.cdf_reader_spec.specs.declared.Call.{Call};
ghost use Rattle.cdf_reader_cursor.specs.declared.Cursor.{Cursor};
ghost use Rattle.cdf_reader_cursor.specs.Outcomes.{cursor_place, reply_from};
ghost use Rattle.cdf_reader_step.specs.Kept.{cursor_kept};
ghost use Rattle.cdf_reader_numbers.specs.Taking.{part_is, part_by};
ghost use Rattle.cdf_reader_replay_spec.specs.Replay.{known_code, call_by, ran_of, entry_of, log_after, Replayed};
ghost use Rattle.cdf_refusal.specs.Numbers.{number_in, count_in};
ghost use Rattle.cdf_reader_replay_spec.specs.Holding.{Held, cursor_after, number_told, told_of};
ghost use Rattle.cdf_reader_replay.specs.Turned.{turned_by};

use cdf_reader_advance_by::advance;
use cdf_reader_cursor::{Cursor, Outcome, first_as, no_cursor, pass};
use cdf_reader_numbers::Part;
use cdf_reader_replay_codes::call_of_code;
use cdf_reader_spec::Call;
use cdf_reader_step::last_depth;
use cdf_reader_use::{has_use, is_start};
use cdf_refusal::{Fault, Refusal};
use cdf_unit_list::{Ranked, Unit};
use cdf_unit_own::row::NAME_BYTES;
use cdf_unit_prefix::{Edition, edition_of};

// What a replay runs: a reader's calls, by its table.
pub trait Turns {
    // The code that the first reader's replay would be given.
    ghost heard: { ℕ → ℕ };

    // The call of a code, if it is the code of one.
    fn call_of(code: u8) -> Option<Call>
        ensures { result ≡ cond (known_code (heard code)) (Some (call_by (heard code))) None };

    // What a call answers at any place, by this reader's calls.
    ghost turned: { Self → Layout → List ℕ → Cursor → Call → Reply };

    // Any call. At a place that the loop holds it is the first reader's, and the loop may go on with what it leaves.
    fn turn(&self, c: Cursor, edition: Edition, call: Call, s: &[u8]) -> Result<Outcome, Fault>
        ensures is { reply_from (cursor_kept call c) result ≡ turned self.now (layout_of edition) s.now c call }
        ensures due { Held s.now c → edition ≡ edition_of s.now →
            reply_from (cursor_kept call c) result ≡ call_of (layout_for s.now) s.now (cursor_place c) call }
        ensures held { Held s.now c → edition ≡ edition_of s.now → Held s.now (cursor_after call c result) };
}

// The first reader, with the format's row of name bytes.
struct ByRow {
    row: [u8; 256],
    ghost published: { row ≡ name_row },
}

impl Turns for ByRow {
    ghost heard = { λ code. code };

    ghost turned = { λ by. turned_by (row_bytes by.row) };

    #[inline]
    fn call_of(code: u8) -> Option<Call> {
        call_of_code(code)
    }

    // Nothing to do here, then what the call does. `call_at` has the same calls, behind a test of the place that this loop need not ask.
    #[inline]
    fn turn(&self, c: Cursor, edition: Edition, call: Call, s: &[u8]) -> Result<Outcome, Fault> {
        if !has_use(call, c.units.count, c.fresh, c.last.id) {
            return Err(Refusal::NoUse.at(0));
        }
        match call {
            Call::Start => first_as(edition, s),
            Call::Next => advance(c, &self.row, edition, s),
            Call::Skip | Call::GetStream => Ok(pass(c)),
            Call::Previous => Ok(Outcome {
                handed: Ranked {
                    unit: c.last,
                    depth: last_depth(c),
                    rank: c.ranks.last,
                },
                cursor: c,
            }),
        }
    }
}

// Writes the numbers of an entry, each straight into the log: by an array that is copied there, a replay of short units takes a quarter longer.
#[inline]
fn write_numbers(entry: &mut [u64], number: usize, offset: usize, part: Part, handed: Ranked)
    requires { length entry.old ≡ 11 }
    ensures { entry.new ≡ entry_of (record { number = number; offset = offset; part = part_is part; handed = handed }) }
{
    entry[0] = number as u64;
    entry[1] = offset as u64;
    entry[2] = part.start as u64;
    entry[3] = part.size as u64;
    entry[4] = handed.unit.id as u64;
    entry[5] = handed.unit.action as u64;
    entry[6] = handed.unit.start as u64;
    entry[7] = handed.unit.own as u64;
    entry[8] = handed.unit.end as u64;
    entry[9] = handed.depth as u64;
    entry[10] = handed.rank as u64;
}

// Writes the entry of a turn at a place with this last unit.
#[inline]
fn write_entry(entry: &mut [u64], call: Call, told: Result<Outcome, Fault>, last: Unit)
    requires { length entry.old ≡ 11 }
    ensures { entry.new ≡ entry_of (told_of told (part_by call (number_told told) last.start last.end)) }
{
    match told {
        Ok(o) => write_numbers(entry, 0, 0, Part::of(call, 0, last), o.handed),
        Err(fault) => write_numbers(
            entry,
            fault.refusal.number(),
            fault.offset,
            Part::default(),
            Ranked::default(),
        ),
    }
}

// The cursor to which a turn leads.
#[inline]
fn after(call: Call, told: Result<Outcome, Fault>, c: Cursor) -> Cursor
    ensures { result ≡ cursor_after call c told }
{
    match told {
        Ok(o) => o.cursor,
        Err(_) => {
            if is_start(call) {
                return no_cursor();
            }
            c
        }
    }
}

// Runs the calls one after the other, and writes an entry for each.
fn run<T: Turns>(reader: &T, s: &[u8], calls: &[u8], log: &mut [u64]) -> usize
    requires { 11 * length calls.now ≤ length log.old }
    ensures count { result ≡ length (ran_of s.now (map T.heard calls.now)) }
    ensures written { log.new ≡ log_after (ran_of s.now (map T.heard calls.now)) log.old }
{
    let edition = edition_of(s);
    let mut c = no_cursor();
    for (k, &code) in calls.iter().enumerate() {
        let Some(call) = T::call_of(code) else {
            return k;
        };
        let told = reader.turn(c, edition, call, s);
        write_entry(&mut log[11 * k..11 * k + 11], call, told, c.last);
        c = after(call, told, c);
    }
    calls.len()
}

// A run of a reader's calls: 12 if the log could not hold an entry for each code; else how many entries there are.
pub fn replay_by<T: Turns>(
    reader: &T,
    s: &[u8],
    calls: &[u8],
    log: &mut [u64],
) -> Result<usize, Refusal>
    ensures { Replayed s.now (map T.heard calls.now) log.old (number_in result) log.new (count_in result ∷ []) }
{
    if log.len() / 11 < calls.len() {
        return Err(Refusal::NoRoom);
    }
    Ok(run(reader, s, calls, log))
}

// The first reader's calls, by their codes: 1 start, 2 NEXT, 3 SKIP, 4 GET_STREAM, 5 PREVIOUS; a code that is none of these ends the run.
pub fn replay(s: &[u8], calls: &[u8], log: &mut [u64]) -> Result<usize, Refusal>
    ensures { Replayed s.now calls.now log.old (number_in result) log.new (count_in result ∷ []) }
{
    replay_by(&ByRow { row: NAME_BYTES }, s, calls, log)
}
