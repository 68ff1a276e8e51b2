// The reader's place and what its calls answer: the types of the calls and of a place's ranks; in specs/ definitions and claims, and no
// function.
#![tactic(auto)]

// The calls of a run.
#[derive(Clone, Copy)]
pub enum Call {
    Start,
    Next,
    Skip,
    GetStream,
    Previous,
}

// The ranks that a place carries: of the innermost open unit, of those around it from the outermost inwards, and of the last unit. They stand
// beside the open units, since the definitions and a place's numbers have them so, and a builder's units have none.
#[derive(Clone, Copy, Default)]
pub struct Ranks {
    pub top: usize,
    pub r1: usize,
    pub r2: usize,
    pub r3: usize,
    pub last: usize,
}
