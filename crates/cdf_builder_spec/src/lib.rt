// The builder's open units and its place in parts; in specs/ its place, when that fits, and what each call answers.
#![tactic(auto)]

use cdf_open_units::OpenUnits;

// A unit whose children are being written. The state tells which unit it is and what it has had.
#[derive(Clone, Copy, Default)]
pub struct Begun {
    pub state: usize,
    pub start: usize,
}

// A place in parts: how many bytes are written, and the open units. `Builder` has the same fields: the calls are its methods, which stand in its crate,
// above all that is made of these.
#[derive(Clone, Copy, Default)]
pub struct Parts {
    pub written: usize,
    pub units: OpenUnits<Begun>,
}
