// What adding a whole group comes to: definitions and claims, and no function.
#![tactic(auto)]
