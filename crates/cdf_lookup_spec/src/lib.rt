// Which of two values counts: in specs/ what a lookup in two streams answers, and what is claimed of it; the types of what is found and of a
// search.
#![tactic(auto)]

// What is asked for: a template's name, the id and the bytes of its first key, and a field's name; names with their count byte.
#[derive(Clone, Copy, Debug)]
pub struct Query<'a> {
    pub template: &'a [u8],
    pub key_id: usize,
    pub key: &'a [u8],
    pub field: &'a [u8],
}

// Where a value stands in its stream: its first byte, and the byte after its last.
#[derive(Clone, Copy, Debug, PartialEq, Eq)]
pub struct Span {
    pub start: usize,
    pub end: usize,
}

// The streams of a lookup. Each is the number that crosses to C.
#[derive(Clone, Copy, Debug, PartialEq, Eq)]
pub enum Which {
    First = 1,
    Second = 2,
}

// What a lookup finds: in which stream the value stands, where it starts there, and how many bytes it has.
#[derive(Clone, Copy, Debug, PartialEq, Eq)]
pub struct Found {
    pub which: Which,
    pub start: usize,
    pub size: usize,
}

// How far a search has come: there was no template yet that could be it; one that has the name ends there, and its first key comes next;
// the one that is asked for ends there, and its fields come; it is over, and has found the value, or nothing.
#[derive(Clone, Copy, Debug, PartialEq, Eq)]
pub enum Search {
    Seeking,
    Named(usize),
    Inside(usize),
    Over(Option<Span>),
}
