//! The JSON object that a data file is.

ghost use Rattle.hl_files.specs.Objects.{ReadsObject};

use serde_json::Value;
use std::alloc::Global;

/// Why a text gives no object.
#[derive(Clone, Copy, Drop)]
pub(crate) enum ObjectRefusal {
    /// The text is no JSON, or no object.
    NotJson,
    OutOfMemory,
}

/// The object that a text is.
pub(crate) fn read_object(alloc: Global, text: &[u8]) -> Result<Value, ObjectRefusal>
    ensures { ReadsObject text.now result }
{
    match Value::from_slice(alloc, text) {
        Ok(file) => {
            if file.is_object() {
                Ok(file)
            } else {
                Err(ObjectRefusal::NotJson)
            }
        }
        Err(error) => {
            if error.is_memory() {
                Err(ObjectRefusal::OutOfMemory)
            } else {
                Err(ObjectRefusal::NotJson)
            }
        }
    }
}
