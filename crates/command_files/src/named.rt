//! Files of words that may name one.

ghost use Rattle.std.specs.Prelude.{◌≡◌};
ghost use Rattle.std.specs.Option.{option_copied};
ghost use Rattle.command_files.specs.Files.{after_named, next_named};
ghost use Rattle.command_files.specs.Reads.{texts_of};

/// Of files that were read, the bytes of that of a word which may name one, and the files after it.
pub fn next_named<'a>(name: Option<&str>, found: &'a [Vec<u8>]) -> (Option<&'a [u8]>, &'a [Vec<u8>])
    ensures next { option_copied result.0 ≡ next_named (option_copied name.entry) (texts_of found.entry.now) }
    ensures rest { texts_of result.1.now ≡ after_named (option_copied name.entry) (texts_of found.entry.now) }
{
    match (name, found.split_first()) {
        (Some(_), Some((bytes, rest))) => (Some(bytes.as_slice()), rest),
        _ => (None, found),
    }
}
