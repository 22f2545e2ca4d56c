// What the station writes opens as the tree it was: no functions, only what is proved of the definitions.
#![tactic(auto)]
