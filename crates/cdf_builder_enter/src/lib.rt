// The builder's place with a unit more, by its parts.
#![tactic(auto)]

ghost use Rattle.std.specs.Prelude.{◌≡◌};
ghost use Rattle.cdf_builder_enter.specs.Entering.{entered_in};

use cdf_builder_spec::{Begun, Parts};
use cdf_open_units::{Left, OpenUnits};

// The place with so many bytes: of the units left open, and the new one in its first state, if it has one.
pub fn enter(p: Parts, left: Left<Begun>, written: usize, first: Option<usize>) -> Parts
    ensures { result ≡ entered_in p left.count left.top written first }
{
    let Some(state) = first else {
        return Parts {
            written,
            units: OpenUnits {
                count: left.count,
                top: left.top,
                ..p.units
            },
        };
    };
    let inner = Begun {
        state,
        start: p.written,
    };
    // An arm for each slot.
    let units = match left.count {
        1 => OpenUnits {
            count: 2,
            top: inner,
            o1: left.top,
            ..p.units
        },
        2 => OpenUnits {
            count: 3,
            top: inner,
            o2: left.top,
            ..p.units
        },
        _ => OpenUnits {
            count: 4,
            top: inner,
            o3: left.top,
            ..p.units
        },
    };
    Parts { written, units }
}
