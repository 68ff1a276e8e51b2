// A run of the table reader's calls, by their codes, into a log. The table is made once for the run.
#![tactic(auto)]

ghost use Rattle.std.specs.Prelude.{◌≡◌, [], ◌∷◌};
ghost use Rattle.cdf_unit_prefix.specs.Layout.{layout_of};
ghost use Rattle.cdf_reader_spec.specs.declared.Call.TheVariants.{Previous};
ghost use Rattle.cdf_reader_cursor.specs.Outcomes.{reply_from};
ghost use Rattle.cdf_reader_step.specs.Kept.{cursor_kept, Again};
ghost use Rattle.cdf_refusal.specs.Numbers.{number_in, count_in};
ghost use Rattle.cdf_table_reader_spec.specs.Table.{entries};
ghost use Rattle.cdf_table_reader_replay_spec.specs.Replay.{heard, TableReplayed};
ghost use Rattle.cdf_table_reader_replay.specs.Turned.{turned_by};

use cdf_reader_cursor::{Cursor, Outcome};
use cdf_reader_replay::{Turns, replay_by};
use cdf_reader_spec::Call;
use cdf_reader_step::call_at;
use cdf_refusal::{Fault, Refusal};
use cdf_table_reader::TABLE;
use cdf_table_reader_first::first_by;
use cdf_table_reader_step::advance_by;
use cdf_unit_prefix::Edition;

// Each call by any table and at any cursor. What looks into no row is the first reader's. NEXT tests no place: each that the loop holds fits.
#[inline]
fn turn_by(
    table: &[u8; 434],
    c: Cursor,
    edition: Edition,
    call: Call,
    s: &[u8],
) -> Result<Outcome, Fault>
    ensures is { reply_from (cursor_kept call c) result ≡ turned_by table.now (layout_of edition) s.now c call }
    ensures again { call ≡ Previous → Again c result }
{
    match call {
        Call::Start => first_by(table, edition, s),
        Call::Next => {
            if c.units.count == 0 {
                return Err(Refusal::NoUse.at(0));
            }
            advance_by(table, c, edition, s)
        }
        Call::Skip | Call::GetStream | Call::Previous => call_at(c, edition, call, s),
    }
}

// The table reader, with the format's table.
struct ByTable {
    table: [u8; 434],
    ghost published: { table ≡ entries },
}

impl Turns for ByTable {
    ghost heard = { heard };

    ghost turned = { λ by. turned_by by.table };

    #[inline]
    fn call_of(code: u8) -> Option<Call> {
        match code {
            1 => Some(Call::Start),
            2 => Some(Call::Next),
            3 => Some(Call::Skip),
            _ => None,
        }
    }

    #[inline]
    fn turn(&self, c: Cursor, edition: Edition, call: Call, s: &[u8]) -> Result<Outcome, Fault> {
        turn_by(&self.table, c, edition, call, s)
    }
}

// A run of calls, by their codes: 1 start, 2 NEXT, 3 SKIP; any other ends it. No room if the log could not hold an entry for each code;
// else how many entries there are.
pub fn table_replay(s: &[u8], calls: &[u8], log: &mut [u64]) -> Result<usize, Refusal>
    ensures { TableReplayed s.now calls.now log.old (number_in result) log.new (count_in result ∷ []) }
{
    replay_by(&ByTable { table: TABLE }, s, calls, log)
}
