// Definitions, claims and laws of a replay: a run of the reader's calls by their codes, and the log that it leaves.
#![tactic(auto)]
