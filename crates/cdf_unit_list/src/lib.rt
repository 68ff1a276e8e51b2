// The units of a stream: the types that the calls share, and in specs/ the unit list, the check's answer and the samples.
#![tactic(auto)]

// A unit. Positions are offsets in the stream; `own` is where its name or its numbers end, or its prefix if it has none of
// these.
#[derive(Clone, Copy, Default)]
pub struct Unit {
    pub id: usize,
    pub action: usize,
    pub start: usize,
    pub own: usize,
    pub end: usize,
}

// A unit with where it stands in the tree, as it is handed out: its depth, which is 1 for the root, and its rank among its
// siblings, which is 0 for the first.
#[derive(Clone, Copy, Default)]
pub struct Ranked {
    pub unit: Unit,
    pub depth: usize,
    pub rank: usize,
}

// A unit whose children are being read. The state tells which unit it is and what it has had.
#[derive(Clone, Copy, Default)]
pub struct Open {
    pub state: usize,
    pub start: usize,
    pub end: usize,
}
