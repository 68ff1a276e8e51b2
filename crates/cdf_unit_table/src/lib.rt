// The table of units: which there are, their actions, what each admits and when it is complete.
#![tactic(auto)]

ghost use Rattle.std.specs.Prelude.{◌≡◌, ◌&&◌, cond, leb, Some, None};
ghost use Rattle.cdf_unit_table.specs.Ids.{known, action_allowed, temporary_key, template_key, entity_key, relation_key};
ghost use Rattle.cdf_unit_table.specs.States.{admit, root_kind, nothing, skipped, complete, some_state};

// Ids, actions and states are numbers, and no enums: each open function that takes one answers for any number, as programs hand them in.
// The ids.
pub const STREAM: usize = 1;

pub const CALL: usize = 2;

pub const PARAMETER: usize = 3;

pub const ER_GROUP: usize = 4;

pub const TEMPLATE: usize = 5;

pub const TEMPORARY_KEY: usize = 6;

pub const TEMPLATE_KEY: usize = 7;

pub const FIELD: usize = 8;

pub const RELATION: usize = 9;

pub const ORDERED_RELATION: usize = 10;

pub const ENTITY_KEY: usize = 11;

pub const RELATION_KEY: usize = 12;

pub const FILE_GROUP: usize = 13;

pub const LINE: usize = 14;

pub const IDS_END: usize = 15;

// The actions.
pub const NONE: usize = 0;

pub const CREATE: usize = 1;

pub const READ: usize = 2;

pub const UPDATE: usize = 3;

pub const DELETE: usize = 4;

// The states: the unit, and what it has had. The states of a unit stand together, from 'nothing' to 'skipped'.
pub const STREAM_NEW: usize = 1;

pub const STREAM_CALL: usize = 2;

pub const STREAM_GROUP: usize = 3;

pub const STREAM_SKIPPED: usize = 4;

pub const ER_NEW: usize = 5;

pub const ER_DATA: usize = 6;

pub const ER_SKIPPED: usize = 7;

pub const FILE_NEW: usize = 8;

pub const FILE_LINES: usize = 9;

pub const FILE_SKIPPED: usize = 10;

pub const CALL_NEW: usize = 11;

pub const CALL_PARAMETERS: usize = 12;

pub const CALL_SKIPPED: usize = 13;

pub const TEMPLATE_NEW: usize = 14;

pub const TEMPLATE_TEMPORARY: usize = 15;

pub const TEMPLATE_KEYS: usize = 16;

pub const TEMPLATE_FIELDS: usize = 17;

pub const TEMPLATE_SKIPPED: usize = 18;

pub const RELATION_NEW: usize = 19;

pub const RELATION_SOURCE: usize = 20;

pub const RELATION_TARGET: usize = 21;

pub const RELATION_SKIPPED: usize = 22;

pub const ORDERED_NEW: usize = 23;

pub const ORDERED_SOURCE: usize = 24;

pub const ORDERED_TARGET: usize = 25;

pub const ORDERED_SKIPPED: usize = 26;

pub const ENTITY_NEW: usize = 27;

pub const ENTITY_TEMPORARY: usize = 28;

pub const ENTITY_KEYS: usize = 29;

pub const ENTITY_SKIPPED: usize = 30;

pub fn is_known(id: usize) -> bool
    ensures { result ≡ known id }
{
    (STREAM <= id) & (id < IDS_END)
}

pub fn is_root_kind(id: usize) -> bool
    ensures { result ≡ root_kind id }
{
    (id == STREAM) | ((id == ER_GROUP) | (id == FILE_GROUP))
}

pub fn action_allowed(id: usize, action: usize) -> bool
    ensures { result ≡ action_allowed id action }
{
    match id {
        TEMPLATE | FIELD => {
            (action == CREATE) | ((action == READ) | ((action == UPDATE) | (action == DELETE)))
        }
        RELATION => (action == CREATE) | ((action == READ) | (action == DELETE)),
        ORDERED_RELATION => (action == CREATE) | (action == UPDATE),
        _ => ((STREAM <= id) & (id < IDS_END)) & (action == NONE),
    }
}

// The state of a unit of this id that has had nothing, where it admits others.
pub fn first_state(id: usize) -> Option<usize>
    ensures { result ≡ some_state (nothing id) }
{
    match id {
        STREAM => Some(STREAM_NEW),
        CALL => Some(CALL_NEW),
        ER_GROUP => Some(ER_NEW),
        TEMPLATE => Some(TEMPLATE_NEW),
        RELATION => Some(RELATION_NEW),
        ORDERED_RELATION => Some(ORDERED_NEW),
        ENTITY_KEY => Some(ENTITY_NEW),
        FILE_GROUP => Some(FILE_NEW),
        _ => None,
    }
}

// The state of the same unit in which it was skipped; 0 for a number that is no state, as is promised for any.
pub fn skipped_state(state: usize) -> usize
    ensures { result ≡ skipped state }
{
    if state < STREAM_NEW {
        return 0;
    }
    if state <= STREAM_SKIPPED {
        return STREAM_SKIPPED;
    }
    if state <= ER_SKIPPED {
        return ER_SKIPPED;
    }
    if state <= FILE_SKIPPED {
        return FILE_SKIPPED;
    }
    if state <= CALL_SKIPPED {
        return CALL_SKIPPED;
    }
    if state <= TEMPLATE_SKIPPED {
        return TEMPLATE_SKIPPED;
    }
    if state <= RELATION_SKIPPED {
        return RELATION_SKIPPED;
    }
    if state <= ORDERED_SKIPPED {
        return ORDERED_SKIPPED;
    }
    if state <= ENTITY_SKIPPED {
        return ENTITY_SKIPPED;
    }
    0
}

// The states in which a unit is complete, a bit for each.
const COMPLETE: usize = (1 << STREAM_CALL)
    + (1 << STREAM_GROUP)
    + (1 << STREAM_SKIPPED)
    + (1 << ER_DATA)
    + (1 << ER_SKIPPED)
    + (1 << FILE_LINES)
    + (1 << FILE_SKIPPED)
    + (1 << CALL_NEW)
    + (1 << CALL_PARAMETERS)
    + (1 << CALL_SKIPPED)
    + (1 << TEMPLATE_TEMPORARY)
    + (1 << TEMPLATE_KEYS)
    + (1 << TEMPLATE_FIELDS)
    + (1 << TEMPLATE_SKIPPED)
    + (1 << RELATION_TARGET)
    + (1 << RELATION_SKIPPED)
    + (1 << ORDERED_TARGET)
    + (1 << ORDERED_SKIPPED)
    + (1 << ENTITY_TEMPORARY)
    + (1 << ENTITY_KEYS)
    + (1 << ENTITY_SKIPPED);

// Whether a unit in this state is complete.
pub fn is_complete(state: usize) -> bool
    ensures { result ≡ complete state }
{
    (state < 32) & ((COMPLETE >> (state % 32)) & 1 == 1)
}

// The state from one of these on.
fn within(state: usize, from: usize, to: usize, next: usize) -> Option<usize>
    ensures { result ≡ cond (leb from state && leb state to) (Some next) None }
{
    if (from <= state) & (state <= to) {
        Some(next)
    } else {
        None
    }
}

// The state after a temporary key, which is a unit's only key.
fn after_temporary(state: usize) -> Option<usize>
    ensures { result ≡ some_state (admit state temporary_key) }
{
    match state {
        TEMPLATE_NEW => Some(TEMPLATE_TEMPORARY),
        ENTITY_NEW => Some(ENTITY_TEMPORARY),
        _ => None,
    }
}

// The state after a template key.
fn after_key(state: usize) -> Option<usize>
    ensures { result ≡ some_state (admit state template_key) }
{
    match state {
        TEMPLATE_NEW => Some(TEMPLATE_KEYS),
        TEMPLATE_KEYS => Some(TEMPLATE_KEYS),
        ENTITY_NEW => Some(ENTITY_KEYS),
        ENTITY_KEYS => Some(ENTITY_KEYS),
        _ => None,
    }
}

// The state after an entity key or a relation key, the source or the target of a relation.
fn after_end(state: usize) -> Option<usize>
    ensures { (result ≡ some_state (admit state entity_key)) × (result ≡ some_state (admit state relation_key)) }
{
    match state {
        RELATION_NEW => Some(RELATION_SOURCE),
        RELATION_SOURCE => Some(RELATION_TARGET),
        ORDERED_NEW => Some(ORDERED_SOURCE),
        ORDERED_SOURCE => Some(ORDERED_TARGET),
        _ => None,
    }
}

// The state after a child of this id, where it is admitted. Neighbouring ids have an arm each: an arm for both would be proved as a
// range.
pub fn state_after(state: usize, child: usize) -> Option<usize>
    ensures { result ≡ some_state (admit state child) }
{
    match child {
        CALL => within(state, STREAM_NEW, STREAM_GROUP, STREAM_CALL),
        ER_GROUP | FILE_GROUP => within(state, STREAM_CALL, STREAM_CALL, STREAM_GROUP),
        PARAMETER => within(state, CALL_NEW, CALL_PARAMETERS, CALL_PARAMETERS),
        TEMPLATE | RELATION => within(state, ER_NEW, ER_DATA, ER_DATA),
        ORDERED_RELATION => within(state, ER_NEW, ER_DATA, ER_DATA),
        TEMPORARY_KEY => after_temporary(state),
        TEMPLATE_KEY => after_key(state),
        FIELD => within(state, TEMPLATE_TEMPORARY, TEMPLATE_FIELDS, TEMPLATE_FIELDS),
        ENTITY_KEY => after_end(state),
        RELATION_KEY => after_end(state),
        LINE => within(state, FILE_NEW, FILE_LINES, FILE_LINES),
        _ => None,
    }
}
