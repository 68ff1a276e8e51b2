// Definitions, claims and laws of a replay of the reader that is driven by a table.
#![tactic(auto)]
