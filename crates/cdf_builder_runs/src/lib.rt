// Runs of the builder, in specs/ and proofs/: the rest of demand 2. There is no function here.
#![tactic(auto)]
