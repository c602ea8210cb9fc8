//! Typed programs, which break no rule and no limit: what the checker gives and the layers above
//! take.
#![tactic(auto)]

ghost use Rattle.std.specs.Prelude.{◌≡◌};
ghost use Rattle.hl_typed.specs.Typed.{BreaksNothing};

use hl_data::Functions;
use hl_syntax::Wanted;
use std::marker::Model;

/// The typed tree of a program: its functions, and the witnesses of `main` with their types in the
/// text's order, in edition 2 each at its first place alone; and its edition, 1 or 2. It breaks no
/// rule and no limit.
#[derive(Drop)]
pub struct TypedProgram {
    functions: Functions,
    witnesses: Wanted,
    edition: u8,
}

impl Model for TypedProgram {
    ghost use Rattle.hl_rules.specs.Programs.{Checked};
    ghost use Rattle.hl_typed.specs.Typed.{BreaksNothing, coded_checked};

    ghost Value = { Checked };

    ghost coded = { coded_checked };

    ghost view = { λ found. record { functions = found.functions; witnesses = found.witnesses; edition = found.edition } };

    ghost invariant = { λ found. BreaksNothing (record { functions = found.functions; witnesses = found.witnesses; edition = found.edition }) };
}

impl TypedProgram {
    /// The functions in the text's order and the witnesses of `main` in theirs, of a program of an
    /// edition that breaks nothing.
    pub fn new(functions: Functions, witnesses: Wanted, edition: u8) -> TypedProgram
        requires { BreaksNothing (record { functions = functions; witnesses = witnesses; edition = edition }) }
        ensures { result ≡ record { functions = functions; witnesses = witnesses; edition = edition } }
    {
        TypedProgram {
            functions,
            witnesses,
            edition,
        }
    }

    /// What a typed program is: it breaks no rule and no limit.
    pub fn breaks_nothing(&self)
        ensures { BreaksNothing self.now }
    {
        let _functions = &self.functions;
    }

    /// The functions in the text's order.
    pub fn functions(&self) -> &Functions
        ensures { result.now ≡ self.now.functions }
    {
        &self.functions
    }

    /// The edition of the language that the program is of, 1 or 2.
    pub fn edition(&self) -> u8
        ensures { result ≡ self.now.edition }
    {
        self.edition
    }

    /// The witnesses of `main` with their types, in the text's order.
    pub fn witnesses(&self) -> &Wanted
        ensures { result.now ≡ self.now.witnesses }
    {
        &self.witnesses
    }
}
