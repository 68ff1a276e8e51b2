// The calls of a replay's codes.
#![tactic(auto)]

ghost use Rattle.std.specs.Prelude.{◌≡◌, Some, None, cond};
ghost use Rattle.cdf_reader_replay_spec.specs.Replay.{known_code, call_by};

use cdf_reader_spec::Call;

// Whether it is the code of a call.
#[inline]
pub fn is_known(code: u8) -> bool
    ensures { result ≡ known_code code }
{
    (1 <= code) & (code <= 5)
}

// The call of a known code.
#[inline]
pub fn call_by(code: u8) -> Call
    ensures { result ≡ call_by code }
{
    match code {
        1 => Call::Start,
        2 => Call::Next,
        3 => Call::Skip,
        4 => Call::GetStream,
        _ => Call::Previous,
    }
}

// The call of a code, if it is the code of one: by the two above, each of which is promised for any number.
#[inline]
pub fn call_of_code(code: u8) -> Option<Call>
    ensures { result ≡ cond (known_code code) (Some (call_by code)) None }
{
    if is_known(code) {
        Some(call_by(code))
    } else {
        None
    }
}
