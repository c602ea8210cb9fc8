/// Why a call gives no value.
#[derive(Debug, Drop, PartialEq, Eq)]
pub enum EvalRefusal {
    /// A part that was evaluated failed.
    Failed,
    /// There was no memory.
    OutOfMemory,
}
