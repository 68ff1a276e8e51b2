// The name at the front of a unit's own data, by a row that tells where each byte may stand.
#![tactic(auto)]

ghost use Rattle.std.specs.Prelude.{◌≡◌};
ghost use Rattle.cdf_unit_data.specs.Standing.{row_bytes};
ghost use Rattle.cdf_unit_data.specs.Data.{front_by, name_by};

// What a row says of a byte, as numbers: any row of bytes that is lent is promised by, whatever stands in it.
pub const NOWHERE: u8 = 0;

pub const NOT_FIRST: u8 = 1;

pub const ANYWHERE: u8 = 2;

// By the row, a byte may stand anywhere in a name.
fn is_first(row: &[u8; 256], b: u8) -> bool
    ensures { result ≡ (row_bytes row.now).first b }
{
    row[b as usize] == ANYWHERE
}

// By the row, a byte may stand in a name after its first.
fn is_later(row: &[u8; 256], b: u8) -> bool
    ensures { result ≡ (row_bytes row.now).later b }
{
    row[b as usize] != NOWHERE
}

// How many bytes from the front may stand in a name from its first on, by the row.
fn name_front(row: &[u8; 256], s: &[u8]) -> usize
    ensures { result ≡ front_by (row_bytes row.now) s.now }
{
    if s.len() == 0 {
        return 0;
    }
    if !is_first(row, s[0]) {
        return 0;
    }
    for i in 1..s.len() {
        if !is_later(row, s[i]) {
            return i;
        }
    }
    s.len()
}

// A name with its count at the front: how many bytes it takes, or the first that breaks its rule.
pub fn name(row: &[u8; 256], s: &[u8]) -> Result<usize, usize>
    ensures { result ≡ name_by (row_bytes row.now) s.now }
{
    if s.len() == 0 {
        return Err(0);
    }
    let count = s[0] as usize;
    if count < 1 {
        return Err(0);
    }
    if 32 < count {
        return Err(0);
    }
    if s.len() - 1 < count {
        return Err(0);
    }
    let end = 1 + count;
    let front = name_front(row, &s[1..end]);
    if front == count {
        Ok(end)
    } else {
        Err(1 + front)
    }
}
