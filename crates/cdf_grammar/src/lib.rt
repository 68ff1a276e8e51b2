// The published grammar: definitions and laws, in specs/ and proofs/. It has no function.
#![tactic(auto)]
