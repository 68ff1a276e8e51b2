// What a state tells of its unit: which unit it is of, and whether it was skipped.
#![tactic(auto)]

ghost use Rattle.std.specs.Prelude.{◌≡◌, not, ◌&&◌, eqb, leb, ltb};
ghost use Rattle.cdf_unit_table.specs.States.{states_end, unit_of, skipped};

use cdf_unit_table::{
    CALL, CALL_NEW, CALL_PARAMETERS, CALL_SKIPPED, ENTITY_KEY, ENTITY_KEYS, ENTITY_NEW,
    ENTITY_SKIPPED, ENTITY_TEMPORARY, ER_DATA, ER_GROUP, ER_NEW, ER_SKIPPED, FILE_GROUP,
    FILE_LINES, FILE_NEW, FILE_SKIPPED, ORDERED_NEW, ORDERED_RELATION, ORDERED_SKIPPED,
    ORDERED_SOURCE, ORDERED_TARGET, RELATION, RELATION_NEW, RELATION_SKIPPED, RELATION_SOURCE,
    RELATION_TARGET, STREAM, STREAM_CALL, STREAM_GROUP, STREAM_NEW, STREAM_SKIPPED, TEMPLATE,
    TEMPLATE_FIELDS, TEMPLATE_KEYS, TEMPLATE_NEW, TEMPLATE_SKIPPED, TEMPLATE_TEMPORARY,
    skipped_state,
};

// The id of the unit that a state is of; 0 for a number that is no state, as is promised for any.
pub fn unit_of(state: usize) -> usize
    ensures { result ≡ unit_of state }
{
    match skipped_state(state) {
        STREAM_SKIPPED => STREAM,
        ER_SKIPPED => ER_GROUP,
        FILE_SKIPPED => FILE_GROUP,
        CALL_SKIPPED => CALL,
        TEMPLATE_SKIPPED => TEMPLATE,
        RELATION_SKIPPED => RELATION,
        ORDERED_SKIPPED => ORDERED_RELATION,
        ENTITY_SKIPPED => ENTITY_KEY,
        _ => 0,
    }
}

// The states but for 'skipped', a bit for each, as `COMPLETE` has them: a test of one word.
const UNSKIPPED: usize = (1 << STREAM_NEW)
    + (1 << STREAM_CALL)
    + (1 << STREAM_GROUP)
    + (1 << ER_NEW)
    + (1 << ER_DATA)
    + (1 << FILE_NEW)
    + (1 << FILE_LINES)
    + (1 << CALL_NEW)
    + (1 << CALL_PARAMETERS)
    + (1 << TEMPLATE_NEW)
    + (1 << TEMPLATE_TEMPORARY)
    + (1 << TEMPLATE_KEYS)
    + (1 << TEMPLATE_FIELDS)
    + (1 << RELATION_NEW)
    + (1 << RELATION_SOURCE)
    + (1 << RELATION_TARGET)
    + (1 << ORDERED_NEW)
    + (1 << ORDERED_SOURCE)
    + (1 << ORDERED_TARGET)
    + (1 << ENTITY_NEW)
    + (1 << ENTITY_TEMPORARY)
    + (1 << ENTITY_KEYS);

// Whether it is a state, and not one in which its unit was skipped.
pub fn is_unskipped(state: usize) -> bool
    ensures { result ≡ ((leb 1 state && ltb state states_end) && not (eqb state (skipped state))) }
{
    (state < 32) & ((UNSKIPPED >> (state % 32)) & 1 == 1)
}
