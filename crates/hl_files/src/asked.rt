//! Entries that must be there, with their types.

ghost use Rattle.std.specs.Prelude.{◌≡◌, map, IfOk};
ghost use Rattle.serde_json.specs.View.{view};
ghost use Rattle.hl_meaning.specs.Entries.{AreValued, IsValued};
ghost use Rattle.hl_files.specs.Reads.{ReadsWanted, WantedAt, typed_name};
ghost use Rattle.hl_files.specs.Turns.{Always, InTurn};

use crate::object::{ObjectRefusal, read_object};
use crate::refusal::WantedRefusal;
use crate::texts::{EntryRefusal, Typed, type_and_text};
use hl_data::{Entries, Entry};
use hl_syntax::{TypedName, Wanted};
use hl_types::same_type;
use hl_values::{ValueRefusal, read_value};
use serde_json::Value;
use std::alloc::Global;

/// The entry of a wanted name.
fn entry_for(alloc: Global, file: &Value, wanted: &TypedName) -> Result<Entry, WantedRefusal>
    ensures finds { WantedAt (view file.now) wanted.now result }
    ensures valued { IfOk result IsValued }
{
    let name = wanted.name.clone()?;
    let Some(entry) = file.get(name.as_str()) else {
        return Err(WantedRefusal::Missing { name });
    };
    match type_and_text(alloc, entry) {
        Ok(Typed { kind, text }) => {
            if !same_type(&kind, &wanted.kind) {
                return Err(WantedRefusal::TypeDiffers { name });
            }
            match read_value(alloc, text, &kind) {
                Ok(value) => Ok(Entry { name, kind, value }),
                Err(ValueRefusal::NotValue) => Err(WantedRefusal::BadValue { name }),
                Err(ValueRefusal::OutOfMemory) => Err(WantedRefusal::OutOfMemory),
            }
        }
        Err(EntryRefusal::NotEntry) => Err(WantedRefusal::BadEntry { name }),
        Err(EntryRefusal::OutOfMemory) => Err(WantedRefusal::OutOfMemory),
    }
}

/// The entries of wanted names.
fn entries_for(alloc: Global, file: &Value, wanted: &Wanted) -> Result<Entries, WantedRefusal>
    ensures finds { InTurn (Always (WantedAt (view file.now))) wanted.now result }
    ensures valued { IfOk result AreValued }
{
    let mut entries = Entries::new(alloc);
    'wanted: for one in wanted.as_slice() {
        let entry = entry_for(alloc, file, one)?;
        entries.push(entry)?;
    }
    Ok(entries)
}

/// The entries of wanted names, each of the wanted type, in the names' order.
///
/// # Errors
///
/// `NotJson` where the text is no JSON object; else, at the first name whose entry isn't as it
/// should be, the first of `Missing`, `BadEntry`, `TypeDiffers` and `BadValue` that holds; and
/// `OutOfMemory`.
pub fn read_wanted(alloc: Global, text: &[u8], wanted: &Wanted) -> Result<Entries, WantedRefusal>
    ensures read { ReadsWanted text.now wanted.now result }
    ensures valued { IfOk result AreValued }
    ensures wanted { IfOk result (λ entries. map typed_name entries ≡ wanted.now) }
{
    match read_object(alloc, text) {
        Ok(file) => entries_for(alloc, &file, wanted),
        Err(ObjectRefusal::NotJson) => Err(WantedRefusal::NotJson),
        Err(ObjectRefusal::OutOfMemory) => Err(WantedRefusal::OutOfMemory),
    }
}
