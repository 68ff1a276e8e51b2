// What the builder writes: a unit or a group, and the lengths of the open units.
#![tactic(auto)]

ghost use Rattle.std.specs.Prelude.{◌≡◌, [], ◌+◌, ◌-◌, drop};
ghost use Rattle.cdf_unit_prefix.specs.Layout.{layout_of};
ghost use Rattle.cdf_grammar.specs.Encoding.{bytes_of, unit_bytes};
ghost use Rattle.cdf_builder_write.specs.Patch.{patch};
ghost use Rattle.cdf_builder_spec.specs.Calls.{lengths, write_of};
ghost use Rattle.cdf_builder_append.specs.Held.{held};

use cdf_builder_spec::{Begun, Parts};
use cdf_builder_write::{write_bytes, write_length, write_unit};
use cdf_unit_prefix::Edition;

// Writes the length of an open unit: from its start to where the writing stands.
fn write_open(edition: Edition, buffer: &mut [u8], written: usize, o: Begun)
    ensures { buffer.new ≡ patch (o.start + 2) (bytes_of (layout_of edition).length_bytes (written - o.start)) buffer.old }
{
    let len = written.saturating_sub(o.start);
    write_length(edition, buffer, o.start, len);
}

// Writes the lengths of the units around the innermost one, from the outermost inwards.
fn rewrite_around(edition: Edition, buffer: &mut [u8], p: Parts)
    ensures { buffer.new ≡ lengths (layout_of edition) p.written (drop 1 (held p).units) buffer.old }
{
    if p.units.count < 2 {
        return;
    }
    write_open(edition, buffer, p.written, p.units.o1);
    if p.units.count < 3 {
        return;
    }
    write_open(edition, buffer, p.written, p.units.o2);
    if p.units.count < 4 {
        return;
    }
    write_open(edition, buffer, p.written, p.units.o3);
}

// Writes the lengths of all open units.
fn rewrite(edition: Edition, buffer: &mut [u8], p: Parts)
    ensures { buffer.new ≡ lengths (layout_of edition) p.written (held p).units buffer.old }
{
    if p.units.count == 0 {
        return;
    }
    rewrite_around(edition, buffer, p);
    write_open(edition, buffer, p.written, p.units.top);
}

// Writes a unit at a position, and then the lengths of the units that are open at a place.
pub fn append_unit(
    edition: Edition,
    buffer: &mut [u8],
    at: usize,
    p: Parts,
    id: u8,
    action: u8,
    data: &[u8],
)
    ensures { buffer.new
        ≡ write_of (layout_of edition) at (held p) (unit_bytes (layout_of edition) id action «data».now []) buffer.old }
{
    write_unit(edition, buffer, at, id, action, data);
    rewrite(edition, buffer, p);
}

// The same for the bytes of a group.
pub fn append_group(edition: Edition, buffer: &mut [u8], at: usize, p: Parts, bytes: &[u8])
    ensures { buffer.new ≡ write_of (layout_of edition) at (held p) bytes.now buffer.old }
{
    write_bytes(buffer, at, bytes);
    rewrite(edition, buffer, p);
}
