//! Rows of the source language's texts, as tests over its lower layers: words of a command, small sources, tokens, trees,
//! dead places, and the forms of types. A crate with tests is proved a second time with them, so the rows stand here. It
//! has no calls.
#![tactic(auto)]

#[cfg(test)]
mod commands;
#[cfg(test)]
mod dead_places;
#[cfg(test)]
mod forms;
#[cfg(test)]
mod lexed;
#[cfg(test)]
mod made;
#[cfg(test)]
mod refusals;
#[cfg(test)]
mod sequences;
#[cfg(test)]
mod small_sources;
#[cfg(test)]
mod trees;
#[cfg(test)]
mod types;
