//! Names as they are printed: of rules, of limits, and of what is wrong with a source or with data.

ghost use Rattle.std.specs.Prelude.{◌≡◌};
ghost use Rattle.command_outcome.specs.Names.{data_cause, limit_name, rule_name, source_cause};

use hl_syntax::{Limit, Rule};

/// Why a source is refused.
#[derive(Clone, Copy, Debug)]
pub enum SourceCause {
    /// Its bytes are no UTF-8 from there on.
    NotUtf8,
    /// A character begins no token.
    BadCharacter,
    /// A comment has no end.
    OpenComment,
    /// Its tokens are no program.
    Syntax,
    /// It breaks a rule.
    Broken(Rule),
    /// `build` doesn't take it yet.
    NotYet,
}

impl SourceCause {
    /// The cause as it is printed.
    pub(crate) fn name(self) -> &'static str
        ensures { result.now ≡ source_cause self }
    {
        match self {
            SourceCause::NotUtf8 => "NotUtf8",
            SourceCause::BadCharacter => "BadCharacter",
            SourceCause::OpenComment => "OpenComment",
            SourceCause::Syntax => "Syntax",
            SourceCause::Broken(rule) => rule_name(rule),
            SourceCause::NotYet => "NotYet",
        }
    }
}

/// What is wrong with a data file, an entry of one, or a word that gives a value.
#[derive(Clone, Copy, Debug, PartialEq, Eq)]
pub enum DataCause {
    /// The file is no JSON object.
    NotJson,
    /// The file has no entry of the name, or no value is given.
    Missing,
    /// The entry has no type text or no text of a value.
    BadEntry,
    /// The entry's type isn't the one that is wanted.
    TypeDiffers,
    /// The entry's text is no value text of its type.
    BadValue,
    /// The word's text is no value text of the wanted type.
    NotValue,
}

impl DataCause {
    /// The cause as it is printed.
    pub(crate) fn name(self) -> &'static str
        ensures { result.now ≡ data_cause self }
    {
        match self {
            DataCause::NotJson => "NotJson",
            DataCause::Missing => "Missing",
            DataCause::BadEntry => "BadEntry",
            DataCause::TypeDiffers => "TypeDiffers",
            DataCause::BadValue => "BadValue",
            DataCause::NotValue => "NotValue",
        }
    }
}

/// A rule as it is printed.
fn rule_name(rule: Rule) -> &'static str
    ensures { result.now ≡ rule_name rule }
{
    match rule {
        Rule::K1 => "K1",
        Rule::K2 => "K2",
        Rule::K3 => "K3",
        Rule::K4 => "K4",
        Rule::K5 => "K5",
        Rule::K6 => "K6",
        Rule::K7 => "K7",
        Rule::K8 => "K8",
        Rule::K9 => "K9",
        Rule::K10 => "K10",
        Rule::K11 => "K11",
        Rule::K12 => "K12",
        Rule::K13 => "K13",
        Rule::K14 => "K14",
        Rule::K15 => "K15",
        Rule::K16 => "K16",
        Rule::K17 => "K17",
        Rule::K18 => "K18",
        Rule::K19 => "K19",
        Rule::K20 => "K20",
        Rule::K21 => "K21",
        Rule::K22 => "K22",
        Rule::K23 => "K23",
        Rule::K24 => "K24",
    }
}

/// A limit as it is printed.
pub(crate) fn limit_name(limit: Limit) -> &'static str
    ensures { result.now ≡ limit_name limit }
{
    match limit {
        Limit::L1 => "L1",
        Limit::L2 => "L2",
        Limit::L3 => "L3",
        Limit::L4 => "L4",
        Limit::L5 => "L5",
        Limit::L6 => "L6",
        Limit::L7 => "L7",
        Limit::L8 => "L8",
        Limit::L9 => "L9",
        Limit::L10 => "L10",
    }
}
