// The jets of the language, defined once for every layer that speaks of them: which there are, with their types, and what each gives.
#![tactic(auto)]
