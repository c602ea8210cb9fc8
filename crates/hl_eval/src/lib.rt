//! What a function of a program gives for its arguments: the meaning of a source text, computed.
#![tactic(auto)]

mod call;
mod conversion;
mod copy;
mod evaluator;
mod expressions;
mod fault;
mod jet_calls;
mod literals;
mod of_type;
mod patterns;
mod program;
mod refusal;
mod scope;
mod sound;
mod turn;
mod uses;
mod values;

pub use call::eval;
pub use fault::EvalFault;
pub use program::evaluate;
pub use refusal::EvalRefusal;
