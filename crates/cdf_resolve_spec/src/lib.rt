// Entity keys that mean templates of their own group: in specs/ what resolving them answers, and what is claimed of it; the types of a pass.
#![tactic(auto)]

// What a pass has met so far, the gravest of it: nothing that is refused; an entity key without a template, which starts there; a doubled template,
// which starts there; more templates than there is room for.
#[derive(Clone, Copy, Debug, Default, PartialEq, Eq)]
pub enum Worst {
    #[default]
    Fine,
    Lacking(usize),
    Doubled(usize),
    Crowded,
}

// How far a pass has come: how many templates it holds, how many entity keys have theirs, and the gravest of what it met.
#[derive(Clone, Copy, Debug, Default, PartialEq, Eq)]
pub struct Tally {
    pub templates: usize,
    pub count: usize,
    pub worst: Worst,
}
