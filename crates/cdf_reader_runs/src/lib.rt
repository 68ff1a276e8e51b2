// What holds of the reader over whole runs of calls: definitions and claims, and no function.
#![tactic(auto)]
