//! Editions of the language.

ghost use Rattle.std.specs.Prelude.{◌≡◌};
ghost use Rattle.std.specs.Option.{option_copied};
ghost use Rattle.command_words.specs.Editions.{edition_in, number_of};

/// An edition of the language.
#[derive(Clone, Copy, Debug, PartialEq, Eq)]
pub enum Edition {
    /// `1`, which words that name none ask for.
    First,
    /// `2`.
    Second,
}

impl Edition {
    /// The edition's number, 1 or 2.
    pub fn number(self) -> u8
        ensures { result ≡ number_of self }
    {
        match self {
            Edition::First => 1,
            Edition::Second => 2,
        }
    }
}

/// The edition that a value of its key names, the first where none is given.
pub(crate) fn edition_in(value: Option<&str>) -> Edition
    ensures { result ≡ edition_in (option_copied value.entry) }
{
    match value {
        Some(number) if number == "2" => Edition::Second,
        _ => Edition::First,
    }
}
