// The prefix of a unit in either edition, and the rules 3 to 6, which look at nothing else.
#![tactic(auto)]

ghost use Rattle.std.specs.Prelude.{◌≡◌, [], ◌∷◌, ◌+◌, ◌*◌, ◌≤◌, ◌<◌, length};
ghost use Rattle.cdf_unit_prefix.specs.Layout.{layout_of, edition_of, prefix_of, marked, length_at, length_fits};
ghost use Rattle.cdf_unit_prefix.specs.Rules.{head_of, headed};

use cdf_refusal::Refusal;
use cdf_unit_table::is_known;

// Which of the two published layouts a stream has.
#[derive(Clone, Copy)]
pub enum Edition {
    First,
    Second,
}

// The edition of a stream, or of any other bytes: each open function that is not told its edition asks here, once.
pub fn edition_of(s: &[u8]) -> Edition
    ensures { result ≡ edition_of s.now }
{
    Edition::First
}

// What a prefix says.
#[derive(Clone, Copy)]
pub struct Header {
    pub id: usize,
    pub action: usize,
    pub length: usize,
}

// How many bytes a prefix has.
pub fn prefix(edition: Edition) -> usize
    ensures is { result ≡ prefix_of (layout_of edition) }
    ensures near { (6 ≤ result) × (result ≤ 8) }
{
    match edition {
        Edition::First => 6,
        Edition::Second => 8,
    }
}

// The longest stream.
pub fn limit(edition: Edition) -> usize
    ensures { result ≡ (layout_of edition).limit }
{
    match edition {
        Edition::First => 65535,
        Edition::Second => 16777215,
    }
}

pub fn second_mark(edition: Edition) -> u8
    ensures { result ≡ (layout_of edition).mark }
{
    match edition {
        Edition::First => 0xF1,
        Edition::Second => 0xF2,
    }
}

// Whether two bytes are the edition's mark.
fn is_mark(edition: Edition, a: u8, b: u8) -> bool
    ensures { result ≡ marked (layout_of edition) (a ∷ b ∷ []) }
{
    (a == 0xCD) & (b == second_mark(edition))
}

// The length that a prefix gives.
fn length_at(edition: Edition, s: &[u8]) -> usize
    requires { prefix_of (layout_of edition) ≤ length s.now }
    ensures { result ≡ length_at (layout_of edition) s.now }
{
    match edition {
        Edition::First => u16::from_be_bytes([s[2], s[3]]) as usize,
        Edition::Second => u32::from_be_bytes([s[2], s[3], s[4], s[5]]) as usize,
    }
}

// Whether a unit with n bytes left for it may have this length.
fn length_fits(edition: Edition, root: bool, n: usize, len: usize) -> bool
    ensures { result ≡ length_fits (layout_of edition) root n len }
{
    if root {
        let most = limit(edition);
        return (len == n) & (len <= most);
    }
    len <= n
}

// Rules 3 to 6: the first that is broken, or what the prefix says.
pub fn head(edition: Edition, root: bool, s: &[u8]) -> Result<Header, Refusal>
    ensures { headed result ≡ head_of (layout_of edition) root s.now }
{
    let p = prefix(edition);
    if s.len() < p {
        return Err(Refusal::Short);
    }
    if !is_mark(edition, s[0], s[1]) {
        return Err(Refusal::Mark);
    }
    let length = length_at(edition, s);
    if length < p {
        return Err(Refusal::Length);
    }
    if !length_fits(edition, root, s.len(), length) {
        return Err(Refusal::Length);
    }
    let id = s[p - 1] as usize;
    if !is_known(id) {
        return Err(Refusal::UnknownId);
    }
    let action = s[p - 2] as usize;
    Ok(Header { id, action, length })
}
