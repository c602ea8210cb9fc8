//! Programs.

ghost use Rattle.std.specs.Prelude.{◌≡◌, IfOk};
ghost use Rattle.hl_rules.specs.Breaks.{Breaks};
ghost use Rattle.hl_meaning.specs.Entries.{AreValued};
ghost use Rattle.hl_rules.specs.Programs.{checked};
ghost use Rattle.simplicityhl.specs.Kinds.{IsSound};
ghost use Rattle.hl_typed.specs.Typed.{IsEdition};
ghost use Rattle.hl_scope.specs.Contexts.{IsSoundFunction};
ghost use Rattle.hl_scope.specs.Checks.{Checks, ChecksAs};
ghost use Rattle.hl_check.specs.Tells.{TellsBroken};
ghost use Rattle.hl_check.specs.Knowns.{IsSoundKnown, alias_known, and_function, body_after, function_after, item_after, items_of, known_of, walked_of};

use crate::expr::{MOST_DEPTH, expr};
use hl_data::{Entries, Functions, TypedExpr, TypedFunction};
use hl_scope::{
    Body, CheckRefusal, Checker, Scope, declare_alias, has_function, head, listed, needs,
};
use hl_syntax::{
    Aliases, Expr, HlType, Item, Mark, Param, Program, Rule, Span, TypeText, TypedName, Wanted,
};
use hl_typed::TypedProgram;
use hl_types::copy_type;
use lists::{Boxed, Text};
use std::alloc::{AllocError, Global};

/// The aliases and the functions up to a place of the text, and the witnesses that were met.
#[derive(Drop)]
struct Walked {
    aliases: Aliases,
    functions: Functions,
    met: Wanted,
}

/// What a program is checked with: the entries for its parameters, and the edition of the language,
/// 1 or 2.
#[derive(Clone, Copy)]
struct Setting<'a> {
    alloc: Global,
    entries: &'a Entries,
    edition: u8,
}

/// The body of a function at the result's type, in a box, where the parameters are in scope; and
/// the witnesses that were met up to its end.
fn body_of(
    setting: Setting<'_>,
    known: &Walked,
    name: &Mark,
    params: &Wanted,
    kind: &HlType,
    e: &Expr,
) -> Result<(Boxed<TypedExpr>, Wanted), CheckRefusal>
    requires known { IsSoundKnown (known_of known.now) }
    requires kind { IsSound kind.now }
    ensures { Checks (body_after setting.entry known.now name.now params.now kind.now e.now) result }
{
    let mut scope = Scope::new(setting.alloc);
    scope.bind(copy_names(setting.alloc, params.as_slice())?)?;
    let met = copy_names(setting.alloc, known.met.as_slice())?;
    let mut body = Body { scope, met };
    let checker = Checker::new(
        setting.alloc,
        &known.aliases,
        &known.functions,
        setting.entries,
        setting.edition,
        name.text.as_str(),
    );
    let found = expr(&checker, MOST_DEPTH, e, kind, Rule::K6, &mut body)?;
    Ok((Boxed::new(setting.alloc, found)?, body.met))
}

/// A function's head, and then its body; and the witnesses that were met up to its end.
fn function(
    setting: Setting<'_>,
    known: &Walked,
    name: &Mark,
    parts: &[Param],
    text: &Option<TypeText>,
    e: &Expr,
) -> Result<(TypedFunction, Wanted), CheckRefusal>
    requires { IsSoundKnown (known_of known.now) }
    ensures gives { Checks (function_after setting.entry known.now name.now parts.now text.now e.now) result }
    ensures sound { IfOk result (λ found. IsSoundFunction found.0) }
{
    let functions = known.functions.as_slice();
    let (params, kind) = head(setting.alloc, &known.aliases, functions, name, parts, text)?;
    let (found, met) = body_of(setting, known, name, &params, &kind, e)?;
    let copied = copy_text(&name.text)?;
    let f = TypedFunction {
        name: copied,
        params,
        result: kind,
        body: found.into_inner(),
    };
    Ok((f, met))
}

/// A copy of a name.
fn copy_text(name: &Text) -> Result<Text, AllocError>
    ensures { IfOk result (λ copy. copy ≡ name.now) }
{
    Ok(name.clone()?)
}

/// A copy of names with their types.
fn copy_names(alloc: Global, names: &[TypedName]) -> Result<Wanted, AllocError>
    ensures { IfOk result (λ copies. copies ≡ names.now) }
{
    let mut copies = Wanted::new(alloc);
    'names: for one in names {
        let kind = copy_type(alloc, &one.kind)?;
        let name = one.name.clone()?;
        copies.push(TypedName { name, kind })?;
    }
    Ok(copies)
}

/// What is known after an alias.
fn alias(alloc: Global, known: Walked, name: &Mark, text: &TypeText) -> Result<Walked, CheckRefusal>
    requires { IsSoundKnown (known_of known) }
    ensures gives { ChecksAs walked_of (alias_known (known_of known) name.now text.now known.met) result }
    ensures sound { IfOk result (λ next. IsSoundKnown (known_of next)) }
{
    let Walked {
        mut aliases,
        functions,
        met,
    } = known;
    declare_alias(alloc, &mut aliases, name, text)?;
    Ok(Walked {
        aliases,
        functions,
        met,
    })
}

/// What is known after a function.
#[tactic(auto, using(hl_scope::proofs::Sounds::one_function_sound))]
fn with_function(known: Walked, f: TypedFunction, met: Wanted) -> Result<Walked, AllocError>
    requires known { IsSoundKnown (known_of known) }
    requires function { IsSoundFunction f }
    ensures known { IfOk result (λ next. known_of next ≡ and_function (known_of known) f) }
    ensures met { IfOk result (λ next. next.met ≡ met) }
    ensures sound { IfOk result (λ next. IsSoundKnown (known_of next)) }
{
    let Walked {
        aliases,
        mut functions,
        met: _,
    } = known;
    functions.push(f)?;
    Ok(Walked {
        aliases,
        functions,
        met,
    })
}

/// What is known after one more item.
fn item(setting: Setting<'_>, known: Walked, item: &Item) -> Result<Walked, CheckRefusal>
    requires { IsSoundKnown (known_of known) }
    ensures gives { ChecksAs walked_of (item_after setting.entry known item.now) result }
    ensures sound { IfOk result (λ next. IsSoundKnown (known_of next)) }
{
    match item {
        Item::Alias {
            name,
            kind,
            span: _,
        } => alias(setting.alloc, known, name, kind),
        Item::Function {
            name,
            params,
            result: kind,
            body,
            span: _,
        } => {
            let (f, met) = function(setting, &known, name, params.as_slice(), kind, body)?;
            Ok(with_function(known, f, met)?)
        }
    }
}

/// The items, one after the other.
#[tactic(auto, using(crate::proofs::Items::item_next, crate::proofs::Items::no_item, crate::proofs::Items::nothing_sound))]
fn items(setting: Setting<'_>, program: &[Item]) -> Result<Walked, CheckRefusal>
    ensures { ChecksAs walked_of (items_of setting.entry program.now) result }
{
    let mut known = Walked {
        aliases: Aliases::new(setting.alloc),
        functions: Functions::new(setting.alloc),
        met: Wanted::new(setting.alloc),
    };
    'items: for one in program {
        known = item(setting, known, one)?;
    }
    Ok(known)
}

/// Walks a program of an edition of the language, 1 or 2, of which the function `asked` is asked
/// for. `params` are the entries for its parameters, and `end` is the length of its text in bytes.
///
/// # Errors
///
/// The first rule or limit that is broken, with its span, and `OutOfMemory`.
#[tactic(auto, using(crate::proofs::Whole::breaks_nothing))]
pub fn check(
    alloc: Global,
    program: &Program,
    asked: &str,
    params: &Entries,
    edition: u8,
    end: u64,
) -> Result<TypedProgram, CheckRefusal>
    requires edition { IsEdition edition }
    requires entries { AreValued params.now }
    ensures answers { Checks (checked program.now asked.now params.now edition end) result }
    ensures broken { TellsBroken (Breaks program.now asked.now params.now edition end) result }
{
    let setting = Setting {
        alloc,
        entries: params,
        edition,
    };
    let known = items(setting, program.as_slice())?;
    let span = Span { start: end, end };
    needs(
        has_function(known.functions.as_slice(), asked),
        Rule::K20,
        span,
    )?;
    let Walked {
        aliases: _,
        functions,
        met,
    } = known;
    let witnesses = listed(alloc, edition, met)?;
    Ok(TypedProgram::new(functions, witnesses, edition))
}
