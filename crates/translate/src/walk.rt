//! The terms of expressions, form by form, made by a builder in the scope of a layout.

ghost use Rattle.std.specs.Prelude.{◌≡◌, OnOk};
ghost use Rattle.hl_data.specs.declared.typed.TypedForm.TheVariants as form;
ghost use Rattle.term_builder.specs.State.{state_of};
ghost use Rattle.term_builder.specs.Steps.{with_term, with_made, MayMake};
ghost use Rattle.layout_laws.specs.Scopes.{scope_shape};
ghost use Rattle.hl_data.specs.declared.typed.TypedStatement.{out-TypedStatement};
ghost use Rattle.std.specs.List.{All};
ghost use Rattle.translate.specs.Blocks.{advance, ended, before_end, HasInner, IsBeforeSome, LineFits, arm_layout, ArmFits, choose_last};
ghost use Rattle.translate.specs.Fits.{Fits};
ghost use Rattle.translate.specs.Forms.{form_of, form_of_all};
ghost use Rattle.translate.specs.Here.{IsReady, term_in, terms_onto};

use crate::finish::{Finish, finish_form};
use crate::gather::{Gather, gather_parts};
use crate::leaf::{literal, nothing, variable, witness};
use crate::matches::{bound_by, is_left};
use crate::place::Place;
use hl_data::{
    TypedArm, TypedArms, TypedExpr, TypedExprs, TypedForm, TypedStatement, TypedStatements,
};
use lists::Boxed;
use scope_layout::Layout;
use std::alloc::AllocError;
use term_builder::{Builder, CoreType};

/// Makes the term of an expression in the scope of the layout, which is as before when it ends well.
///
/// # Errors
///
/// For want of memory.
#[cycle(translation)]
pub fn expression<'a>(
    place: Place<'a>,
    builder: &mut Builder,
    layout: &mut Layout<'a>,
    e: &'a TypedExpr,
) -> Result<(), AllocError>
    requires fits { Fits place layout.old e.now }
    requires ready { IsReady place layout.old (state_of builder.old) }
    ensures made { OnOk result (state_of builder.new
        ≡ with_term (term_in place.entry (scope_shape layout.old) e.now) (state_of builder.old)) }
    ensures layout { OnOk result (layout.new ≡ layout.old) }
{
    match &e.form {
        TypedForm::Block(statements, last) => block(place, builder, layout, e, statements, last),
        TypedForm::Match(part, arms) => choice(place, builder, layout, e, part.get(), arms),
        TypedForm::Tuple(parts) => with_parts(place, builder, layout, e, Gather::Tuple, parts),
        TypedForm::Array(parts) => with_parts(place, builder, layout, e, Gather::Array, parts),
        TypedForm::List(parts) => with_parts(place, builder, layout, e, Gather::List, parts),
        TypedForm::Call(name, parts) => with_parts(
            place,
            builder,
            layout,
            e,
            Gather::Call(name),
            parts,
        ),
        TypedForm::Assert(part) => with_part(place, builder, layout, e, Finish::Assert, part.get()),
        TypedForm::Dbg(part) => with_part(place, builder, layout, e, Finish::Dbg, part.get()),
        TypedForm::Into(from, part) => with_part(
            place,
            builder,
            layout,
            e,
            Finish::Into(from),
            part.get(),
        ),
        TypedForm::Unwrap(part) => with_part(place, builder, layout, e, Finish::Unwrap, part.get()),
        TypedForm::UnwrapLeft(other, part) => with_part(
            place,
            builder,
            layout,
            e,
            Finish::UnwrapLeft(other),
            part.get(),
        ),
        TypedForm::UnwrapRight(other, part) => with_part(
            place,
            builder,
            layout,
            e,
            Finish::UnwrapRight(other),
            part.get(),
        ),
        TypedForm::IsNone(item, part) => with_part(
            place,
            builder,
            layout,
            e,
            Finish::IsNone(item),
            part.get(),
        ),
        TypedForm::Left(part) => with_part(place, builder, layout, e, Finish::Left, part.get()),
        TypedForm::Right(part) => with_part(place, builder, layout, e, Finish::Right, part.get()),
        TypedForm::Some(part) => with_part(place, builder, layout, e, Finish::Some, part.get()),
        TypedForm::Panic => builder.failure(CoreType::Form(&e.kind)),
        TypedForm::Nothing => nothing(builder, &e.kind),
        TypedForm::True => builder.truth(),
        TypedForm::False => builder.falsehood(),
        TypedForm::Literal(text) => literal(builder, &e.kind, text),
        TypedForm::Value(given) => builder.value(given, &e.kind),
        TypedForm::Name(name) => variable(place, builder, layout, &e.kind, name),
        TypedForm::Witness(name) => witness(place, builder, layout, &e.kind, name),
        TypedForm::Jet(_, _)
        | TypedForm::Fold(_, _, _, _)
        | TypedForm::ArrayFold(_, _, _, _)
        | TypedForm::ForWhile(_, _, _) => unreachable!(),
    }
}

/// Makes the term of an expression of a form that has one part.
#[cycle(translation)]
fn with_part<'a>(
    place: Place<'a>,
    builder: &mut Builder,
    layout: &mut Layout<'a>,
    e: &'a TypedExpr,
    how: Finish<'a>,
    part: &'a TypedExpr,
) -> Result<(), AllocError>
    requires is { e.now.form ≡ form_of how part.now }
    requires fits { Fits place layout.old e.now }
    requires ready { IsReady place layout.old (state_of builder.old) }
    ensures made { OnOk result (state_of builder.new
        ≡ with_term (term_in place.entry (scope_shape layout.old) e.now) (state_of builder.old)) }
    ensures layout { OnOk result (layout.new ≡ layout.old) }
{
    expression(place, builder, layout, part)?;
    finish_form(builder, how, &e.kind)
}

/// Makes the term of an expression of a form that has several parts.
#[cycle(translation)]
fn with_parts<'a>(
    place: Place<'a>,
    builder: &mut Builder,
    layout: &mut Layout<'a>,
    e: &'a TypedExpr,
    how: Gather<'a>,
    parts: &'a TypedExprs,
) -> Result<(), AllocError>
    requires is { e.now.form ≡ form_of_all how parts.now }
    requires fits { Fits place layout.old e.now }
    requires ready { IsReady place layout.old (state_of builder.old) }
    ensures made { OnOk result (state_of builder.new
        ≡ with_term (term_in place.entry (scope_shape layout.old) e.now) (state_of builder.old)) }
    ensures layout { OnOk result (layout.new ≡ layout.old) }
{
    expressions(place, builder, layout, parts)?;
    gather_parts(place, builder, how, &e.kind, parts.len())
}

/// Makes the terms of expressions, from the first.
#[cycle(translation)]
fn expressions<'a>(
    place: Place<'a>,
    builder: &mut Builder,
    layout: &mut Layout<'a>,
    parts: &'a TypedExprs,
) -> Result<(), AllocError>
    requires fit { All (Fits place layout.old) parts.now }
    requires ready { IsReady place layout.old (state_of builder.old) }
    ensures made { OnOk result (state_of builder.new
        ≡ with_made (terms_onto place.entry (scope_shape layout.old) parts.now (state_of builder.old).made)
        (state_of builder.old)) }
    ensures layout { OnOk result (layout.new ≡ layout.old) }
{
    'parts: for part in parts.as_slice() {
        expression(place, builder, layout, part)?;
    }
    Ok(())
}

/// Makes the term of a block: the values of its statements from the first, the last expression, and then what comes
/// of each statement before what comes after it, from the last.
#[cycle(translation)]
#[tactic(auto, using(crate::proofs::BlockTurns::block_line_fits, crate::proofs::BlockTurns::block_line_ready, crate::proofs::BlockTurns::block_last_fits))]
fn block<'a>(
    place: Place<'a>,
    builder: &mut Builder,
    layout: &mut Layout<'a>,
    e: &'a TypedExpr,
    statements: &'a TypedStatements,
    last: &'a Option<Boxed<TypedExpr>>,
) -> Result<(), AllocError>
    requires is { e.now.form ≡ form.Block statements.now last.now }
    requires fits { Fits place layout.old e.now }
    requires ready { IsReady place layout.old (state_of builder.old) }
    ensures made { OnOk result (state_of builder.new
        ≡ with_term (term_in place.entry (scope_shape layout.old) e.now) (state_of builder.old)) }
    ensures layout { OnOk result (layout.new ≡ layout.old) }
{
    let lines = statements.as_slice();
    'lines: for line in lines {
        statement(place, builder, layout, line)?;
    }
    match last {
        Some(last) => expression(place, builder, layout, last.get())?,
        None => builder.unit()?,
    }
    'ends: for done in 0..lines.len() {
        end_of(builder, layout, &lines[lines.len() - 1 - done])?;
    }
    Ok(())
}

/// Makes the term of a statement's value, and enters the scope that a `let` begins.
#[cycle(translation)]
fn statement<'a>(
    place: Place<'a>,
    builder: &mut Builder,
    layout: &mut Layout<'a>,
    line: &'a TypedStatement,
) -> Result<(), AllocError>
    requires fits { LineFits place layout.old (out-TypedStatement line.now) }
    requires ready { IsReady place layout.old (state_of builder.old) }
    ensures made { OnOk result (state_of builder.new
        ≡ (advance place.entry (out-TypedStatement line.now)
        (record { layout = layout.old; state = state_of builder.old })).state) }
    ensures layout { OnOk result (layout.new
        ≡ (advance place.entry (out-TypedStatement line.now)
        (record { layout = layout.old; state = state_of builder.old })).layout) }
{
    match line {
        TypedStatement::Let {
            pattern,
            kind,
            value,
        } => {
            expression(place, builder, layout, value)?;
            layout.bind(pattern, kind)?;
            builder.enter(CoreType::Form(kind))
        }
        TypedStatement::Plain(e) => expression(place, builder, layout, e),
    }
}

/// Makes what comes of a statement's value before what comes after it, and leaves the scope that a `let` began.
fn end_of(
    builder: &mut Builder,
    layout: &mut Layout,
    line: &TypedStatement,
) -> Result<(), AllocError>
    requires open { HasInner (out-TypedStatement line.now) layout.old }
    requires makes { MayMake 2 (before_end (out-TypedStatement line.now) (state_of builder.old))
        (ended (out-TypedStatement line.now) (state_of builder.old)) }
    ensures made { OnOk result (state_of builder.new
        ≡ ended (out-TypedStatement line.now) (state_of builder.old)) }
    ensures layout { OnOk result (IsBeforeSome (out-TypedStatement line.now) layout.old layout.new) }
{
    match line {
        TypedStatement::Let { .. } => {
            layout.unbind();
            builder.leave();
            builder.bind()
        }
        TypedStatement::Plain(_) => builder.follow(),
    }
}

/// Makes the term of a match: that of the value, those of the arms, that of the left tag first, and then the choice.
#[cycle(translation)]
#[tactic(auto, using(crate::proofs::Choices::choice_part_fits, crate::proofs::Choices::choice_one_fits, crate::proofs::Choices::choice_two_fits))]
fn choice<'a>(
    place: Place<'a>,
    builder: &mut Builder,
    layout: &mut Layout<'a>,
    e: &'a TypedExpr,
    part: &'a TypedExpr,
    arms: &'a TypedArms,
) -> Result<(), AllocError>
    requires is { e.now.form ≡ form.Match part.now arms.now }
    requires fits { Fits place layout.old e.now }
    requires ready { IsReady place layout.old (state_of builder.old) }
    ensures made { OnOk result (state_of builder.new
        ≡ with_term (term_in place.entry (scope_shape layout.old) e.now) (state_of builder.old)) }
    ensures layout { OnOk result (layout.new ≡ layout.old) }
{
    let [one, two] = arms.as_slice() else {
        unreachable!()
    };
    expression(place, builder, layout, part)?;
    if is_left(&one.side) {
        both_sides(place, builder, layout, one, two)
    } else {
        both_sides(place, builder, layout, two, one)
    }
}

/// Makes the term of a match of the value that was made last, by its arms for the left and the right tag.
#[cycle(translation)]
fn both_sides<'a>(
    place: Place<'a>,
    builder: &mut Builder,
    layout: &mut Layout<'a>,
    left: &'a TypedArm,
    right: &'a TypedArm,
) -> Result<(), AllocError>
    requires left { ArmFits place layout.old left.now }
    requires right { ArmFits place layout.old right.now }
    requires ready { IsReady place layout.old (state_of builder.old) }
    requires makes { MayMake 1 (state_of builder.old)
        (choose_last place layout.old left.now right.now (state_of builder.old)) }
    ensures made { OnOk result (state_of builder.new
        ≡ choose_last place.entry layout.old left.now right.now (state_of builder.old)) }
    ensures layout { OnOk result (layout.new ≡ layout.old) }
{
    arm(place, builder, layout, left)?;
    arm(place, builder, layout, right)?;
    let (_, first) = bound_by(place, &left.side);
    let (_, second) = bound_by(place, &right.side);
    builder.choose(CoreType::Form(first), CoreType::Form(second))
}

/// Makes the term of an arm in the scope that it begins.
#[cycle(translation)]
#[tactic(auto, using(crate::proofs::Choices::arm_body_fits, crate::proofs::Choices::arm_body_ready))]
fn arm<'a>(
    place: Place<'a>,
    builder: &mut Builder,
    layout: &mut Layout<'a>,
    one: &'a TypedArm,
) -> Result<(), AllocError>
    requires fits { ArmFits place layout.old one.now }
    requires ready { IsReady place layout.old (state_of builder.old) }
    ensures made { OnOk result (state_of builder.new
        ≡ with_term (term_in place.entry (scope_shape (arm_layout place.entry one.now.side layout.old)) one.now.body)
        (state_of builder.old)) }
    ensures layout { OnOk result (layout.new ≡ layout.old) }
{
    let (pattern, kind) = bound_by(place, &one.side);
    layout.bind(pattern, kind)?;
    builder.enter(CoreType::Form(kind))?;
    expression(place, builder, layout, &one.body)?;
    builder.leave();
    layout.unbind();
    Ok(())
}
