//! The term of every typed expression, function and program, with an arrow at every place: the
//! definition that the translator's code is held to. It has no code.
#![tactic(auto)]
