//! Rows of the core language, as tests over its layers: words, types, terms, lists with their typings, roots and bytes,
//! and the table of jets. A crate with tests is proved a second time with them, so the rows stand here. It has no calls.
#![tactic(auto)]

#[cfg(test)]
mod bits;
#[cfg(test)]
mod formulas;
#[cfg(test)]
mod jet_names;
#[cfg(test)]
mod programs;
#[cfg(test)]
mod readings;
#[cfg(test)]
mod roots;
#[cfg(test)]
mod short_programs;
#[cfg(test)]
mod small;
#[cfg(test)]
mod tables;
#[cfg(test)]
mod typings;
#[cfg(test)]
mod values;
#[cfg(test)]
mod words;
