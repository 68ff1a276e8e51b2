// The own data of a unit, on the bytes after its prefix.
#![tactic(auto)]

ghost use Rattle.std.specs.Prelude.{◌≡◌, ◌≤◌, [], ◌∷◌};
ghost use types.Run.{OneOf};
ghost use Rattle.cdf_unit_data.specs.Standing.{row_bytes};
ghost use Rattle.cdf_unit_data.specs.Data.{NameBytes, name_bytes, name_by, value_from, value_after, numbers_of, own_data_by};

use crate::row::NAME_BYTES;
use cdf_unit_name::name;
use cdf_unit_table::{
    CALL, ENTITY_KEY, FIELD, LINE, ORDERED_RELATION, PARAMETER, RELATION, RELATION_KEY, TEMPLATE,
    TEMPLATE_KEY, TEMPORARY_KEY,
};

pub mod row;

// Which bytes may stand in a name: by a row that is lent, as a loop over many units makes it once, or as published.
pub trait NameRow {
    ghost bytes: { Self → NameBytes };

    // A name with its count at the front.
    fn name(&self, s: &[u8]) -> Result<usize, usize>
        ensures { result ≡ name_by (bytes self.now) s.now };
}

impl NameRow for [u8; 256] {
    ghost bytes = { row_bytes };

    fn name(&self, s: &[u8]) -> Result<usize, usize> {
        name(self, s)
    }
}

// The format's row. A constant array is made anew where it is named: so only for a unit that has a name.
pub struct Published;

impl NameRow for Published {
    ghost bytes = { λ _. name_bytes };

    fn name(&self, s: &[u8]) -> Result<usize, usize> {
        let row = NAME_BYTES;
        name(&row, s)
    }
}

// A value that is all but the first k bytes. A name has at most 33 bytes, so k is small.
fn value(k: usize, s: &[u8]) -> Result<usize, usize>
    requires { k ≤ 33 }
    ensures { result ≡ value_from k s.now }
{
    if s.len() <= k + 4096 {
        Ok(k)
    } else {
        Err(k + 4096)
    }
}

// A name, and a value after it.
fn name_and_value<R: NameRow>(row: &R, s: &[u8]) -> Result<usize, usize>
    ensures { result ≡ value_after s.now (name_by (R.bytes row.now) s.now) }
{
    let end = row.name(s)?;
    value(end, s)
}

// n bytes of numbers, which only in a unit that admits others may be followed by more.
fn numbers(n: usize, others: bool, s: &[u8]) -> Result<usize, usize>
    ensures { result ≡ numbers_of n others s.now }
{
    if others {
        if n <= s.len() {
            return Ok(n);
        }
        return Err(0);
    }
    if s.len() == n { Ok(n) } else { Err(0) }
}

// The own data of a unit that has no name: the same by any row.
fn unnamed(id: usize, s: &[u8]) -> Result<usize, usize>
    requires { (OneOf (2 ∷ 5 ∷ 11 ∷ []) id → ⊥) × (OneOf (3 ∷ 8 ∷ []) id → ⊥) }
    ensures { (w : NameBytes) → result ≡ own_data_by w id s.now }
{
    match id {
        TEMPLATE_KEY | LINE => value(0, s),
        TEMPORARY_KEY | RELATION_KEY => numbers(4, false, s),
        RELATION => numbers(4, true, s),
        ORDERED_RELATION => numbers(8, true, s),
        _ => Ok(0),
    }
}

// The own data of a unit with this id, on the bytes after its prefix: how many bytes its name or its numbers take, or the first byte that
// breaks its rule.
pub fn own_data<R: NameRow>(row: &R, id: usize, s: &[u8]) -> Result<usize, usize>
    ensures { result ≡ own_data_by (R.bytes row.now) id s.now }
{
    match id {
        CALL | TEMPLATE | ENTITY_KEY => row.name(s),
        PARAMETER | FIELD => name_and_value(row, s),
        _ => unnamed(id, s),
    }
}
