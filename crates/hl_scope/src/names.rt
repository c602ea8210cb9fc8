//! Names that are reserved.

ghost use Rattle.std.specs.Prelude.{◌≡◌};
ghost use Rattle.hl_rules.specs.Names.{is_reserved, number_words, alias_words, variable_words, function_words};
ghost use Rattle.hl_rules.specs.Places.{is_main};

/// Whether a name is reserved among aliases.
pub(crate) fn is_alias_word(name: &str) -> bool
    ensures { result ≡ is_reserved alias_words name.now }
{
    name == "bool" || name == "List" || name == "Option" || name == "Either" || is_number_type(name)
}

/// Whether a name is that of a type of numbers.
fn is_number_type(name: &str) -> bool
    ensures { result ≡ is_reserved number_words name.now }
{
    name == "u1"
        || name == "u2"
        || name == "u4"
        || name == "u8"
        || name == "u16"
        || name == "u32"
        || name == "u64"
        || name == "u128"
        || name == "u256"
}

/// Whether a name is reserved among variables.
pub(crate) fn is_variable_word(name: &str) -> bool
    ensures { result ≡ is_reserved variable_words name.now }
{
    name == "true"
        || name == "false"
        || name == "None"
        || name == "Left"
        || name == "Right"
        || name == "Some"
}

/// Whether a name is reserved among functions.
pub(crate) fn is_function_word(name: &str) -> bool
    ensures { result ≡ is_reserved function_words name.now }
{
    name == "Left"
        || name == "Right"
        || name == "Some"
        || name == "unwrap"
        || name == "unwrap_left"
        || name == "unwrap_right"
        || name == "is_none"
        || name == "fold"
        || name == "array_fold"
        || name == "for_while"
}

/// Whether a name is that of the function that a program begins with.
pub(crate) fn is_main(name: &str) -> bool
    ensures { result ≡ is_main name.now }
{
    name == "main"
}
