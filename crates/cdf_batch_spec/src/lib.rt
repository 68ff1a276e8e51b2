// What a list of unit requests asks of the builder (02, j); in specs/ what one of them and a whole list answer.
#![tactic(auto)]

// A request: the unit's id and action, and where its own data begins and ends in the text that is lent beside the list.
// It is the struct of the C interface, so its id and action are any numbers.
#[repr(C)]
#[derive(Clone, Copy)]
pub struct UnitRequest {
    pub id: usize,
    pub action: usize,
    pub begin: usize,
    pub end: usize,
}
