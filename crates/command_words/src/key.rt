//! Keys, and the words that give them values.

ghost use Rattle.std.specs.Prelude.{◌≡◌, ◌<◌, length, IfSome};
ghost use Rattle.std.specs.Option.{option_copied};
ghost use Rattle.command_words.specs.Keys.{name_of, takes, given, value_of, fits_key, fits, first_misfit};
ghost use Rattle.command_words.specs.Words.{texts};

use small_source::is_name;

/// A key that a command may have.
#[derive(Clone, Copy, Debug, PartialEq, Eq)]
pub enum Key {
    /// `fn`, the name of a function.
    Function,
    /// `args`, the file of the parameters' entries.
    Args,
    /// `wit`, the file of the witnesses' entries.
    Witness,
    /// `edition`, `1` or `2`.
    Edition,
    /// `input`, the value of the argument.
    Input,
}

impl Key {
    /// What stands before the `=`.
    fn name(self) -> &'static str
        ensures { result.now ≡ name_of self }
    {
        match self {
            Key::Function => "fn",
            Key::Args => "args",
            Key::Witness => "wit",
            Key::Edition => "edition",
            Key::Input => "input",
        }
    }

    /// Whether a value has the key's form.
    fn takes(self, value: &str) -> bool
        ensures { result ≡ takes self value.now }
    {
        match self {
            Key::Function => is_name(value.as_bytes()),
            Key::Args => !value.is_empty(),
            Key::Witness => !value.is_empty(),
            Key::Edition => value == "1" || value == "2",
            Key::Input => true,
        }
    }

    /// What a word gives the key.
    fn given(self, word: &str) -> Option<&str>
        ensures { option_copied result ≡ given self word.now }
    {
        match word.split_once('=') {
            Some((name, value)) if name == self.name() => Some(value),
            _ => None,
        }
    }
}

/// The first value that words give a key.
pub fn value_of<'a>(key: Key, words: &'a [String]) -> Option<&'a str>
    ensures { option_copied result ≡ value_of key (texts words.now) }
{
    'words: for word in words {
        if let Some(value) = key.given(word.as_str()) {
            return Some(value);
        }
    }
    None
}

/// Whether a word fits after others, for this key.
fn fits_key(key: Key, before: &[String], word: &str) -> bool
    ensures { result ≡ fits_key (texts before.now) word.now key }
{
    match key.given(word) {
        Some(value) => key.takes(value) && value_of(key, before).is_none(),
        None => false,
    }
}

/// Whether a word fits after others, for one of these keys.
fn fits(keys: &[Key], before: &[String], word: &str) -> bool
    ensures { result ≡ fits keys.now (texts before.now) word.now }
{
    keys.iter().any(|key| fits_key(*key, before, word))
}

/// The place of the first word that doesn't fit after those before it.
pub fn first_misfit(keys: &[Key], words: &[String]) -> Option<usize>
    ensures found { result ≡ first_misfit keys.now (texts words.now) }
    ensures within { IfSome result (λ place. place < length words.now) }
{
    'words: for (place, word) in words.iter().enumerate() {
        if !fits(keys, &words[..place], word.as_str()) {
            return Some(place);
        }
    }
    None
}
