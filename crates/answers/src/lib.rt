// Answers of readers: no functions, only the ways in which readers are put together and what is proved of them.
#![tactic(auto)]
