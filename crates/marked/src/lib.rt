// The marked numbers of SCOPE, "Numbers to hold it to": what its definitions give, held to what it says, as one statement over
// one list. There is no code here: the definitions are those that the contracts of the crates below cite.
#![tactic(auto)]
