// The reading back of display lines: no functions, only what is proved of the definitions of reading.
#![tactic(auto)]
