// The rescue of a broken E/R group: in specs/ what is kept and what is dropped, and claims about it; the type of a run.
#![tactic(auto)]

// A run of dropped bytes, from its first byte to the byte after its last.
#[derive(Clone, Copy, Debug, Default, PartialEq, Eq)]
pub struct Run {
    pub from: usize,
    pub to: usize,
}
