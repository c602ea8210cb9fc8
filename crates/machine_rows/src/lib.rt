//! Rows of the machine and of the bounds, as tests over their public calls. A crate with tests is proved a second time
//! with them, so the rows stand here. It has no calls.
#![tactic(auto)]

#[cfg(test)]
mod bounds;
#[cfg(test)]
mod frames;
#[cfg(test)]
mod values;
