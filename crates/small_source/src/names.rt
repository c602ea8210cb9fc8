//! Names, keywords and reserved words.

ghost use Rattle.std.specs.Prelude.{◌≡◌, bytes_eq};
ghost use Rattle.std.specs.List.{list_all, list_any};
ghost use Rattle.small_source.specs.Names.{is_blank, is_name_start, is_word_byte, keywords, is_among, is_name, names_variable, names_function};
ghost use Rattle.hl_rules.specs.Names.{variable_words, function_words};

pub(crate) fn is_blank(byte: u8) -> bool
    ensures { result ≡ is_blank byte }
{
    matches!(byte, b' ' | b'\t' | b'\r' | b'\n')
}

fn is_name_start(byte: u8) -> bool
    ensures { result ≡ is_name_start byte }
{
    matches!(byte, b'A'..=b'Z' | b'a'..=b'z' | b'_')
}

pub(crate) fn is_word_byte(byte: u8) -> bool
    ensures { result ≡ is_word_byte byte }
{
    is_name_start(byte) || matches!(byte, b'0'..=b'9')
}

const KEYWORDS: [&[u8]; 5] = [b"_", b"fn", b"type", b"let", b"match"];

const RESERVED_FOR_VARIABLES: [&[u8]; 6] = [b"true", b"false", b"None", b"Left", b"Right", b"Some"];

const RESERVED_FOR_FUNCTIONS: [&[u8]; 10] = [
    b"Left",
    b"Right",
    b"Some",
    b"unwrap",
    b"unwrap_left",
    b"unwrap_right",
    b"is_none",
    b"fold",
    b"array_fold",
    b"for_while",
];

// Whether the word is one of these.
fn is_among(words: &[&[u8]], word: &[u8]) -> bool
    ensures { result ≡ list_any (λ other. bytes_eq other.now word.now) words.now }
{
    words.contains(&word)
}

fn is_keyword(word: &[u8]) -> bool
    ensures { result ≡ is_among keywords word.now }
{
    is_among(KEYWORDS.as_slice(), word)
}

fn is_reserved_for_variables(word: &[u8]) -> bool
    ensures { result ≡ is_among variable_words word.now }
{
    is_among(RESERVED_FOR_VARIABLES.as_slice(), word)
}

fn is_reserved_for_functions(word: &[u8]) -> bool
    ensures { result ≡ is_among function_words word.now }
{
    is_among(RESERVED_FOR_FUNCTIONS.as_slice(), word)
}

fn are_word_bytes(bytes: &[u8]) -> bool
    ensures { result ≡ list_all is_word_byte bytes.now }
{
    bytes.iter().all(|byte| is_word_byte(*byte))
}

/// Whether a word may name something: it begins with a letter or `_`, goes on with letters, digits
/// and `_`, and is no keyword.
#[tactic(auto, using(crate::proofs::Lexing::is_name_of))]
pub fn is_name(word: &[u8]) -> bool
    ensures { result ≡ is_name word.now }
{
    let Some((first, more)) = word.split_first() else {
        return false;
    };
    is_name_start(*first) && are_word_bytes(more) && !is_keyword(word)
}

pub(crate) fn names_variable(word: &[u8]) -> bool
    ensures { result ≡ names_variable word.now }
{
    is_name(word) && !is_reserved_for_variables(word)
}

pub(crate) fn names_function(word: &[u8]) -> bool
    ensures { result ≡ names_function word.now }
{
    is_name(word) && !is_reserved_for_functions(word) && word != b"main".as_slice()
}
