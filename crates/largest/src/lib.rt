// How large a tree a type can make: no functions, only what is proved of the definitions of reading
// and of the read call.
#![tactic(auto)]
