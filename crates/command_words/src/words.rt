//! The words of a command.

ghost use Rattle.std.specs.Prelude.{◌≡◌, ◌+◌, ◌^◌, ◌<◌, length};
ghost use Rattle.command_words.specs.Asked.{reading_of};
ghost use Rattle.command_words.specs.Words.{reading, texts, command_reading, build_keys, build_reading, eval_keys, eval_reading};

use crate::edition::{Edition, edition_in};
use crate::key::{Key, first_misfit, value_of};

/// An evaluation that is asked for.
#[derive(Clone, Copy, Debug)]
pub struct EvalWords<'a> {
    /// The file of the source.
    pub file: &'a str,
    /// The function, `main` where none is named.
    pub function: &'a str,
    /// The edition of the language, the first where none is named.
    pub edition: Edition,
    /// The file of the parameters' entries.
    pub args: Option<&'a str>,
    /// The file of the witnesses' entries.
    pub witness: Option<&'a str>,
    /// The text of the argument's value.
    pub input: Option<&'a str>,
}

/// What the words ask for.
#[derive(Clone, Copy, Debug)]
pub enum Asked<'a> {
    /// The program of a function, from the source of a file.
    Build { file: &'a str, function: &'a str },
    /// The value that a function gives.
    Eval(EvalWords<'a>),
    /// The word at this index doesn't fit; a missing word has the index of the words' end.
    Misfit(usize),
}

/// Reads the words of a command.
pub fn read_words<'a>(words: &'a [String]) -> Asked<'a>
    ensures { reading_of result ≡ reading (texts words.now) }
{
    match words.split_first() {
        Some((verb, rest)) if verb.as_str() == "build" => read_build(rest),
        Some((verb, rest)) if verb.as_str() == "eval" => read_eval(rest),
        _ => Asked::Misfit(0),
    }
}

/// Reads the words after `build`.
fn read_build<'a>(words: &'a [String]) -> Asked<'a>
    requires { length words.now + 1 < 2 ^ 64 }
    ensures { reading_of result ≡ command_reading build_keys build_reading (texts words.now) }
{
    let Some((file, rest)) = words.split_first() else {
        return Asked::Misfit(1);
    };
    if file.as_str().is_empty() {
        return Asked::Misfit(1);
    }
    if let Some(place) = first_misfit(&[Key::Function], rest) {
        return Asked::Misfit(2 + place);
    }
    match value_of(Key::Function, rest) {
        Some(function) => Asked::Build {
            file: file.as_str(),
            function,
        },
        None => Asked::Misfit(2),
    }
}

/// Reads the words after `eval`.
fn read_eval<'a>(words: &'a [String]) -> Asked<'a>
    requires { length words.now + 1 < 2 ^ 64 }
    ensures { reading_of result ≡ command_reading eval_keys eval_reading (texts words.now) }
{
    let Some((file, rest)) = words.split_first() else {
        return Asked::Misfit(1);
    };
    if file.as_str().is_empty() {
        return Asked::Misfit(1);
    }
    let keys = [
        Key::Function,
        Key::Args,
        Key::Witness,
        Key::Edition,
        Key::Input,
    ];
    if let Some(place) = first_misfit(keys.as_slice(), rest) {
        return Asked::Misfit(2 + place);
    }
    Asked::Eval(EvalWords {
        file: file.as_str(),
        function: value_of(Key::Function, rest).unwrap_or("main"),
        edition: edition_in(value_of(Key::Edition, rest)),
        args: value_of(Key::Args, rest),
        witness: value_of(Key::Witness, rest),
        input: value_of(Key::Input, rest),
    })
}
