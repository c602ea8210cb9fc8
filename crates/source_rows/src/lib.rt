//! Rows of the source language, as tests over its upper layers: values, data files, rules and limits, and what sources mean.
//! A crate with tests is proved a second time with them, so the rows of the dear layers stand here. It has no calls.
#![tactic(auto)]

#[cfg(test)]
mod evaluations;
#[cfg(test)]
mod files;
#[cfg(test)]
mod limits;
#[cfg(test)]
mod meanings;
#[cfg(test)]
mod rules;
#[cfg(test)]
mod typed;
#[cfg(test)]
mod values;
