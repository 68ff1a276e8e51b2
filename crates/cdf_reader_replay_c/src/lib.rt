// A run of the reader's calls, for programs in C.
#![tactic(auto)]

ghost use Rattle.cdf_reader_replay_spec.specs.Replay.{Replayed};

use cdf_reader_replay::replay;
use cdf_refusal::tell;

// A run of calls, by their codes: the number; in answer how many entries of the log were written.
#[unsafe(no_mangle)]
pub extern "C" fn cdf_replay(s: &[u8], calls: &[u8], log: &mut [u64], answer: &mut [u64; 1]) -> u64
    ensures { Replayed s.now calls.now log.old result log.new answer.new }
{
    tell(replay(s, calls, log), answer)
}
