//! A builder of terms: terms are made of those that were made last, in the scope that was entered last, as the
//! constructs of the language do. Callers see the terms, and not the tables that hold them.
#![tactic(auto)]

mod builder;
mod core_type;
mod joins;
mod leaves;
mod parts;
mod stack;

pub use builder::Builder;
pub use core_type::CoreType;
