//! Rows of the order of lists, as tests over it: whether a list stands in its order, what is shared in it, the list
//! reordered, and the canonical list of a term. A crate with tests is proved a second time with them, so the rows stand
//! here. It has no calls.
#![tactic(auto)]

#[cfg(test)]
mod canons;
#[cfg(test)]
mod orders;
#[cfg(test)]
mod texts;
