//! Aliases and the heads of functions.

ghost use Rattle.std.specs.Prelude.{◌≡◌, [], IfOk, OnOk};
ghost use Rattle.hl_rules.specs.Declared.{alias_walk, has_function, head_walk, is_empty, may_be, param_walk, params_walk, result_walk};
ghost use Rattle.hl_types.specs.Walks.{AreSound};
ghost use Rattle.simplicityhl.specs.Kinds.{IsSound};
ghost use Rattle.hl_scope.specs.Checks.{Checks, ChecksAs};
ghost use Rattle.hl_scope.specs.Heads.{head_of};

use crate::context::written;
use crate::names::{is_alias_word, is_function_word, is_main, is_variable_word};
use crate::refusal::{CheckRefusal, needs};
use crate::scope::has_name;
use crate::shapes::is_unit;
use hl_data::TypedFunction;
use hl_syntax::{Aliases, HlType, HlTypes, Mark, Param, Rule, TypeText, TypedName, Wanted};
use std::alloc::Global;

/// One more alias, which stands for its type from here on.
#[tactic(auto, using(crate::proofs::Sounds::one_more_sound))]
pub fn declare_alias(
    alloc: Global,
    aliases: &mut Aliases,
    name: &Mark,
    text: &TypeText,
) -> Result<(), CheckRefusal>
    requires { AreSound aliases.old }
    ensures answers { ChecksAs (λ _. aliases.new) (alias_walk aliases.old name.now text.now) result }
    ensures sound { OnOk result (AreSound aliases.new) }
{
    needs(!is_alias_word(name.text.as_str()), Rule::K24, name.span)?;
    let is_new = !has_name(aliases.as_slice(), name.text.as_str());
    needs(is_new, Rule::K1, name.span)?;
    let kind = written(alloc, text, aliases)?;
    let name = name.text.clone()?;
    aliases.push(TypedName { name, kind })?;
    Ok(())
}

/// One more parameter.
#[tactic(auto, using(crate::proofs::Sounds::one_more_sound))]
fn param(
    alloc: Global,
    aliases: &Aliases,
    param: &Param,
    met: &mut Wanted,
) -> Result<(), CheckRefusal>
    requires aliases { AreSound aliases.now }
    requires met { AreSound met.old }
    ensures answers { ChecksAs (λ _. met.new) (param_walk aliases.now param.now met.old) result }
    ensures sound { OnOk result (AreSound met.new) }
{
    let name = &param.name;
    needs(!is_variable_word(name.text.as_str()), Rule::K24, name.span)?;
    let is_new = !has_name(met.as_slice(), name.text.as_str());
    needs(is_new, Rule::K5, name.span)?;
    let kind = written(alloc, &param.kind, aliases)?;
    let name = name.text.clone()?;
    met.push(TypedName { name, kind })?;
    Ok(())
}

/// The parameters of a function with their types.
#[tactic(auto, using(crate::proofs::Params::param_next, crate::proofs::Params::no_param))]
fn params(alloc: Global, aliases: &Aliases, params: &[Param]) -> Result<Wanted, CheckRefusal>
    requires { AreSound aliases.now }
    ensures answers { Checks (params_walk aliases.now params.now []) result }
    ensures sound { IfOk result AreSound }
{
    let mut met = Wanted::new(alloc);
    'params: for one in params {
        param(alloc, aliases, one, &mut met)?;
    }
    Ok(met)
}

/// The type of a function's result, which is `()` where it is left out.
#[tactic(auto, using(crate::proofs::Sounds::unit_sound))]
fn given(alloc: Global, aliases: &Aliases, text: &Option<TypeText>) -> Result<HlType, CheckRefusal>
    requires { AreSound aliases.now }
    ensures answers { Checks (result_walk aliases.now text.now) result }
    ensures sound { IfOk result IsSound }
{
    match text {
        Some(text) => written(alloc, text, aliases),
        None => Ok(HlType::Tuple(HlTypes::new(alloc))),
    }
}

/// Whether a function has the name.
pub fn has_function(functions: &[TypedFunction], name: &str) -> bool
    ensures { result ≡ has_function functions.now name.now }
{
    functions.iter().any(|f| name == f.name.as_str())
}

/// Whether a function may be called so: `main` has no parameters and the result `()`.
fn may_be(name: &str, params: &Wanted, kind: &HlType) -> bool
    ensures { result ≡ may_be name.now params.now kind.now }
{
    if !is_main(name) {
        return true;
    }
    if params.is_empty() {
        return is_unit(kind);
    }
    false
}

/// What the head of a function declares: its parameters and its result.
pub fn head(
    alloc: Global,
    aliases: &Aliases,
    functions: &[TypedFunction],
    name: &Mark,
    parts: &[Param],
    text: &Option<TypeText>,
) -> Result<(Wanted, HlType), CheckRefusal>
    requires { AreSound aliases.now }
    ensures answers { ChecksAs head_of (head_walk aliases.now functions.now name.now parts.now text.now) result }
    ensures params { IfOk result (λ head. AreSound head.0) }
    ensures kind { IfOk result (λ head. IsSound head.1) }
{
    needs(!is_function_word(name.text.as_str()), Rule::K24, name.span)?;
    let is_new = !has_function(functions, name.text.as_str());
    needs(is_new, Rule::K1, name.span)?;
    let known = params(alloc, aliases, parts)?;
    let kind = given(alloc, aliases, text)?;
    needs(
        may_be(name.text.as_str(), &known, &kind),
        Rule::K21,
        name.span,
    )?;
    Ok((known, kind))
}
