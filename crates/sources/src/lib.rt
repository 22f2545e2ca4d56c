// Sources and tokens: no functions, only the words in which reading is defined and what is proved of them.
#![tactic(auto)]
