// Laws of the states of units that lie in one another, compared at every pair of states. They compute for seconds, so they stand alone.
#![tactic(auto)]
