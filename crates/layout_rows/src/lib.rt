//! Rows of layouts, as tests over them: the paths of names after what was bound. A crate with tests is proved a second
//! time with them, so the rows stand here. It has no calls.
#![tactic(auto)]

#[cfg(test)]
mod many;
#[cfg(test)]
mod paths;
#[cfg(test)]
mod patterns;
