//! Entries that may be there.

ghost use Rattle.std.specs.Prelude.{IfOk, IfSome};
ghost use Rattle.serde_json.specs.View.{view};
ghost use Rattle.hl_meaning.specs.Entries.{AreValued, IsValued};
ghost use Rattle.hl_files.specs.Reads.{AreNamed, FindsAt, ReadsEntries};
ghost use Rattle.hl_files.specs.Turns.{InTurn};

use crate::object::{ObjectRefusal, read_object};
use crate::refusal::TextRefusal;
use crate::texts::{EntryRefusal, Typed, type_and_text};
use hl_data::{Entries, Entry, Names};
use hl_values::{ValueRefusal, read_value};
use lists::Text;
use serde_json::Value;
use std::alloc::Global;

/// The entry of a name, if the file has one.
fn entry_at(alloc: Global, file: &Value, name: &Text) -> Result<Option<Entry>, TextRefusal>
    ensures finds { FindsAt (view file.now) name.now result }
    ensures valued { IfOk result (λ found. IfSome found IsValued) }
{
    let Some(entry) = file.get(name.as_str()) else {
        return Ok(None);
    };
    let name = name.clone()?;
    match type_and_text(alloc, entry) {
        Ok(Typed { kind, text }) => match read_value(alloc, text, &kind) {
            Ok(value) => Ok(Some(Entry { name, kind, value })),
            Err(ValueRefusal::NotValue) => Err(TextRefusal::BadValue { name }),
            Err(ValueRefusal::OutOfMemory) => Err(TextRefusal::OutOfMemory),
        },
        Err(EntryRefusal::NotEntry) => Err(TextRefusal::BadEntry { name }),
        Err(EntryRefusal::OutOfMemory) => Err(TextRefusal::OutOfMemory),
    }
}

/// The entries of names that a file has.
fn entries_at(alloc: Global, file: &Value, names: &Names) -> Result<Entries, TextRefusal>
    ensures finds { InTurn (FindsAt (view file.now)) names.now result }
    ensures valued { IfOk result AreValued }
{
    let mut entries = Entries::new(alloc);
    'names: for name in names.as_slice() {
        if let Some(entry) = entry_at(alloc, file, name)? {
            entries.push(entry)?;
        }
    }
    Ok(entries)
}

/// The entries of these names that a data file has, in the names' order.
///
/// # Errors
///
/// `NotJson` where the text is no JSON object; else `BadEntry` or `BadValue` at the first name
/// whose entry is there and isn't as it should be; and `OutOfMemory`.
pub fn read_entries(alloc: Global, text: &[u8], names: &Names) -> Result<Entries, TextRefusal>
    ensures read { ReadsEntries text.now names.now result }
    ensures valued { IfOk result AreValued }
    ensures named { IfOk result (AreNamed text.now names.now) }
{
    match read_object(alloc, text) {
        Ok(file) => entries_at(alloc, &file, names),
        Err(ObjectRefusal::NotJson) => Err(TextRefusal::NotJson),
        Err(ObjectRefusal::OutOfMemory) => Err(TextRefusal::OutOfMemory),
    }
}
