//! Data files that aren't given.

ghost use Rattle.std.specs.Prelude.{◌≡◌};
ghost use Rattle.std.specs.Option.{option_copied};
ghost use Rattle.checked_source.specs.Steps.{object_of};

/// A data file that isn't given counts as an object without entries.
pub(crate) fn object_in(file: Option<&[u8]>) -> &[u8]
    ensures { result.now ≡ object_of (option_copied file.entry) }
{
    match file {
        Some(bytes) => bytes,
        None => b"{}",
    }
}
