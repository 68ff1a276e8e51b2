// The text of the listing program, in specs/, and laws on it. There is no code here.
#![tactic(auto)]
