// The own data of a unit, on the bytes after its prefix: definitions, claims and laws.
#![tactic(auto)]
