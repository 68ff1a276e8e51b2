// The open units of a place, those of a reader and those of a builder: how many, the innermost by itself, and the others by their level.
#![tactic(auto)]

ghost use Rattle.std.specs.Prelude.{◌≡◌};
ghost use Rattle.cdf_open_units.specs.Around.{around};

// So many open units: `top` the innermost, and `o1` to `o3` those around it, from the outermost inwards. Units that the count does not
// reach do not matter.
#[derive(Clone, Copy, Default)]
pub struct OpenUnits<U> {
    pub count: usize,
    pub top: U,
    pub o1: U,
    pub o2: U,
    pub o3: U,
}

// Those of some open units that are left: how many, and the innermost. The units around it stay as they are.
#[derive(Clone, Copy)]
pub struct Left<U> {
    pub count: usize,
    pub top: U,
}

impl<U: Copy> OpenUnits<U> {
    // The unit around the innermost, where so many of these are left open.
    #[inline]
    pub fn around(self, count: usize) -> Option<U>
        ensures { result ≡ around self count }
    {
        match count {
            2 => Some(self.o1),
            3 => Some(self.o2),
            4 => Some(self.o3),
            _ => None,
        }
    }
}
