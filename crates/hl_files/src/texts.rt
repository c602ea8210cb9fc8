//! The texts of an entry.

ghost use Rattle.std.specs.Prelude.{◌≡◌, option_map, IfOk};
ghost use Rattle.serde_json.specs.View.{view};
ghost use Rattle.simplicityhl.specs.Kinds.{IsSound};
ghost use Rattle.hl_files.specs.Answers.{FindsTyped};
ghost use Rattle.hl_files.specs.Objects.{text_at};

use hl_syntax::HlType;
use hl_type_texts::{TypeTextRefusal, read_type};
use serde_json::Value;
use std::alloc::Global;

/// Why a member of a data file gives no type and no text.
#[derive(Clone, Copy, Drop)]
pub(crate) enum EntryRefusal {
    /// It is no object, a text is missing, or the type is no type text.
    NotEntry,
    OutOfMemory,
}

/// An entry's type, and the text of its value.
#[derive(Drop)]
pub(crate) struct Typed<'a> {
    pub(crate) kind: HlType,
    pub(crate) text: &'a str,
}

/// The text that an object has as the member of a name.
fn text_at<'a>(found: &'a Value, name: &str) -> Option<&'a str>
    ensures { option_map (λ text. text.now) result ≡ text_at name.now (view found.now) }
{
    found.get(name).and_then(Value::as_str)
}

/// The type of an entry, and the text of its value.
pub(crate) fn type_and_text<'a>(alloc: Global, entry: &'a Value) -> Result<Typed<'a>, EntryRefusal>
    ensures typed { FindsTyped (view entry.now) result }
    ensures sound { IfOk result (λ found. IsSound found.kind) }
{
    let Some(written) = text_at(entry, "type") else {
        return Err(EntryRefusal::NotEntry);
    };
    let Some(text) = text_at(entry, "value") else {
        return Err(EntryRefusal::NotEntry);
    };
    match read_type(alloc, written) {
        Ok(kind) => Ok(Typed { kind, text }),
        Err(TypeTextRefusal::NotType) => Err(EntryRefusal::NotEntry),
        Err(TypeTextRefusal::OutOfMemory) => Err(EntryRefusal::OutOfMemory),
    }
}
