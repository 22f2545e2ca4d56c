// The grammar: no functions, only the definitions of what is read.
#![tactic(auto)]
