// Definitions, claims and laws of the reader that is driven by a table; the code stands in cdf_table_reader_step and cdf_table_reader.
#![tactic(auto)]
