// Demand 3: the reader answers every list of calls as a plain reader over the unit list does. Definitions and claims, and no
// function.
#![tactic(auto)]
