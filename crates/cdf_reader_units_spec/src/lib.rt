// Definitions, claims and laws of many units in a call; the code stands in cdf_reader_units.
#![tactic(auto)]
