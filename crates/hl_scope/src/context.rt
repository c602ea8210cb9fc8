//! What is known at a function's body.

ghost use Rattle.std.specs.Prelude.{◌≡◌, IfOk, option_copied, IfSome};
ghost use Rattle.std.specs.List.{All};
ghost use Rattle.hl_rules.specs.Places.{entry_named, function_named};
ghost use Rattle.hl_types.specs.Walks.{AreSound};
ghost use Rattle.simplicityhl.specs.Kinds.{IsSound};
ghost use Rattle.simplicityhl.specs.Written.{walk};
ghost use Rattle.hl_scope.specs.Contexts.{IsSoundFunction, context_of, entry_for, function_for};
ghost use Rattle.hl_scope.specs.Checks.{Checks, ChecksAs};

use crate::names::is_main;
use crate::refusal::CheckRefusal;
use hl_data::{Entries, Entry, Functions, TypedFunction};
use hl_syntax::{Aliases, HlType, Mark, Rule, TypeText};
use hl_types::{TypeRefusal, resolve};
use std::alloc::Global;
use std::marker::Model;

/// The aliases and the functions before a function's body, the entries for the parameters of the
/// program, whether the function is `main`, and the edition of the language, 1 or 2. The types of
/// aliases and functions are sound.
#[derive(Drop)]
pub struct Checker<'a> {
    alloc: Global,
    aliases: &'a Aliases,
    functions: &'a Functions,
    entries: &'a Entries,
    in_main: bool,
    edition: u8,
}

impl<'a> Model for Checker<'a> {
    ghost use Rattle.std.specs.List.{All};
    ghost use Rattle.std.specs.Coded.{codes};
    ghost use Rattle.hl_types.specs.Walks.{AreSound};
    ghost use Rattle.hl_rules.specs.Places.{Context};
    ghost use Rattle.hl_scope.specs.Contexts.{IsSoundFunction, coded_context};

    ghost Value = { Context };

    ghost coded = { coded_context };

    ghost view = { λ k. record { aliases = k.aliases.now; functions = k.functions.now; entries = k.entries.now; in_main = k.in_main; edition = k.edition } };

    ghost invariant = { λ k. AreSound k.aliases.now × All IsSoundFunction k.functions.now };
}

/// The type that a written type stands for, after the aliases before it.
pub(crate) fn written(
    alloc: Global,
    text: &TypeText,
    aliases: &Aliases,
) -> Result<HlType, CheckRefusal>
    requires { AreSound aliases.now }
    ensures answers { Checks (walk aliases.now text.now) result }
    ensures sound { IfOk result IsSound }
{
    match resolve(alloc, text, aliases) {
        Ok(kind) => Ok(kind),
        Err(TypeRefusal::Rule { rule, span }) => Err(CheckRefusal::Rule { rule, span }),
        Err(TypeRefusal::Limit { limit, span }) => Err(CheckRefusal::Limit { limit, span }),
        Err(TypeRefusal::OutOfMemory) => Err(CheckRefusal::OutOfMemory),
    }
}

/// The first function of a name that isn't `main`.
#[tactic(auto, using(crate::proofs::Finds::found_holds))]
fn first_function<'a>(functions: &'a [TypedFunction], name: &str) -> Option<&'a TypedFunction>
    requires { All IsSoundFunction functions.now }
    ensures sound { IfSome result (λ f. IsSoundFunction f.now) }
    ensures found { option_copied result ≡ function_named functions.now name.now }
{
    functions
        .iter()
        .find(|f| name == f.name.as_str() && !is_main(f.name.as_str()))
}

/// The first entry of a name.
fn first_entry<'a>(entries: &'a [Entry], name: &str) -> Option<&'a Entry>
    ensures { option_copied result ≡ entry_named entries.now name.now }
{
    entries.iter().find(|entry| name == entry.name.as_str())
}

impl<'a> Checker<'a> {
    /// What is known at the body of a function of a name, in a program of an edition.
    pub fn new(
        alloc: Global,
        aliases: &'a Aliases,
        functions: &'a Functions,
        entries: &'a Entries,
        edition: u8,
        name: &str,
    ) -> Checker<'a>
        requires aliases { AreSound aliases.now }
        requires functions { All IsSoundFunction functions.now }
        ensures { result ≡ context_of aliases.now functions.now entries.now edition name.now }
    {
        Checker {
            alloc,
            aliases,
            functions,
            entries,
            in_main: is_main(name),
            edition,
        }
    }

    /// The type that a written type stands for, after the aliases before it.
    pub fn written(&self, text: &TypeText) -> Result<HlType, CheckRefusal>
        ensures answers { Checks (walk self.now.aliases text.now) result }
        ensures sound { IfOk result IsSound }
    {
        written(self.alloc, text, self.aliases)
    }

    /// The function before of a name, which is not `main`.
    pub fn function(&self, name: &Mark) -> Result<&TypedFunction, CheckRefusal>
        ensures answers { ChecksAs (λ f. f.now) (function_for self.now name.now) result }
        ensures sound { IfOk result (λ f. IsSoundFunction f.now) }
    {
        match first_function(self.functions.as_slice(), name.text.as_str()) {
            Some(f) => Ok(f),
            None => Err(CheckRefusal::Rule {
                rule: Rule::K3,
                span: name.span,
            }),
        }
    }

    /// The entry for a parameter of the program.
    pub(crate) fn entry(&self, name: &Mark) -> Result<&Entry, CheckRefusal>
        ensures { ChecksAs (λ entry. entry.now) (entry_for self.now name.now) result }
    {
        match first_entry(self.entries.as_slice(), name.text.as_str()) {
            Some(entry) => Ok(entry),
            None => Err(CheckRefusal::Rule {
                rule: Rule::K18,
                span: name.span,
            }),
        }
    }

    /// Whether the function is `main`.
    pub(crate) fn is_main(&self) -> bool
        ensures { result ≡ self.now.in_main }
    {
        self.in_main
    }

    /// The edition of the language, 1 or 2.
    pub(crate) fn edition(&self) -> u8
        ensures { result ≡ self.now.edition }
    {
        self.edition
    }

    /// Where memory is taken from.
    pub fn alloc(&self) -> Global {
        self.alloc
    }

    pub fn aliases(&self) -> &Aliases
        ensures is { result.now ≡ self.now.aliases }
        ensures sound { AreSound result.now }
    {
        self.aliases
    }
}
