//! Words of 1 to 256 bits, and what the jets give on them.
#![tactic(auto)]

mod answer;
mod arguments;
mod arithmetic;
mod bits;
mod compare;
mod formulas;
mod op;
mod pad;
mod product;
mod shift;
mod value;
mod word;

pub use answer::JetAnswer;
pub use formulas::formula;
pub use op::Op;
pub use word::Word;
