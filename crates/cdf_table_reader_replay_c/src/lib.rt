// A run of the table reader's calls, for programs in C.
#![tactic(auto)]

ghost use Rattle.cdf_table_reader_replay_spec.specs.Replay.{TableReplayed};

use cdf_refusal::tell;
use cdf_table_reader_replay::table_replay;

// A run of calls, by their codes: the number; in answer how many entries of the log were written.
#[unsafe(no_mangle)]
pub extern "C" fn cdf_table_replay(
    s: &[u8],
    calls: &[u8],
    log: &mut [u64],
    answer: &mut [u64; 1],
) -> u64
    ensures { TableReplayed s.now calls.now log.old result log.new answer.new }
{
    tell(table_replay(s, calls, log), answer)
}
