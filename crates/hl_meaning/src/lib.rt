//! What source values are and what functions mean, defined once for every layer that speaks of it. It has no code.
#![tactic(auto)]
