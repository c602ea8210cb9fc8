//! Small sources of the language: one function over bytes whose result is made of its parameters,
//! as `fn swap(x: u8, y: u8) -> (u8, u8) { (y, x) }`, and a reader of them.
//!
//! A small source for an asked name is one function of that name. It has one to eight parameters of
//! distinct names, each of type `u8`. Its result type is `u8` or a pair of such types, nested at
//! most eight deep, and its body is a name or a pair of such bodies, nested as the result type is.
//! Names are words that begin with a letter or `_` and aren't reserved. Spaces, tabs, carriage
//! returns and line feeds may separate the tokens; there are no comments and no trailing commas.
//! A name in the body need not be a parameter.
#![tactic(auto)]

mod cursor;
mod names;
mod read;
mod small;

pub use names::is_name;
pub use read::{one_function, read_small};
pub use small::{Body, Name, SmallFunction, SmallRefusal};
