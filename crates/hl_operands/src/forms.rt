//! Forms of one word, alone or with what stands after it.

ghost use Rattle.std.specs.Prelude.{◌≡◌};
ghost use Rattle.hl_operands.specs.Exprs.{form_in, NestsIn};
ghost use Rattle.hl_cursor.specs.Gives.{Gives, Reads};

use crate::inner::Inner;
use hl_bindings::type_text;
use hl_cursor::{Cursor, Refused};
use hl_syntax::{Expr, ExprForm, Symbol};
use simplicityhl::ExprAlternative;
use std::alloc::Global;

impl<F: Fn(Global, &mut Cursor<'_>, u8) -> Result<Expr, Refused>> Inner<F> {
    /// `list![expr, ..]`
    #[tactic(auto, unfolding(hl_grammar::specs::Read::expr_form))]
    pub fn list_form(&self, cursor: &mut Cursor<'_>) -> Result<ExprForm, Refused>
        requires { NestsIn self.now (F.pre self.now.expr) (F.post self.now.expr) }
        ensures { Reads (form_in self.now ExprAlternative.List cursor.old) result cursor.new }
    {
        cursor.expect_word("list")?;
        cursor.expect(Symbol::Exclamation)?;
        Ok(ExprForm::List(self.in_brackets(cursor)?))
    }

    /// `panic!()`
    #[tactic(auto, unfolding(hl_grammar::specs::Read::expr_form))]
    pub fn panic_form(&self, cursor: &mut Cursor<'_>) -> Result<ExprForm, Refused>
        ensures { Reads (form_in self.now ExprAlternative.Panic cursor.old) result cursor.new }
    {
        cursor.expect_word("panic")?;
        cursor.expect(Symbol::Exclamation)?;
        cursor.expect(Symbol::OpenParenthesis)?;
        cursor.expect(Symbol::CloseParenthesis)?;
        Ok(ExprForm::Panic)
    }

    /// `None`
    #[tactic(auto, unfolding(hl_grammar::specs::Read::expr_form))]
    pub fn nothing_form(&self, cursor: &mut Cursor<'_>) -> Result<ExprForm, Refused>
        ensures { Reads (form_in self.now ExprAlternative.Nothing cursor.old) result cursor.new }
    {
        cursor.expect_word("None")?;
        Ok(ExprForm::Nothing)
    }

    /// `true`
    #[tactic(auto, unfolding(hl_grammar::specs::Read::expr_form))]
    pub fn true_form(&self, cursor: &mut Cursor<'_>) -> Result<ExprForm, Refused>
        ensures { Reads (form_in self.now ExprAlternative.True cursor.old) result cursor.new }
    {
        cursor.expect_word("true")?;
        Ok(ExprForm::True)
    }

    /// `false`
    #[tactic(auto, unfolding(hl_grammar::specs::Read::expr_form))]
    pub fn false_form(&self, cursor: &mut Cursor<'_>) -> Result<ExprForm, Refused>
        ensures { Reads (form_in self.now ExprAlternative.False cursor.old) result cursor.new }
    {
        cursor.expect_word("false")?;
        Ok(ExprForm::False)
    }

    /// `jet::name(expr, ..)`
    #[tactic(auto, unfolding(hl_grammar::specs::Read::expr_form, hl_grammar::specs::Read::path_name))]
    pub fn jet_form(&self, cursor: &mut Cursor<'_>) -> Result<ExprForm, Refused>
        requires { NestsIn self.now (F.pre self.now.expr) (F.post self.now.expr) }
        ensures { Reads (form_in self.now ExprAlternative.Jet cursor.old) result cursor.new }
    {
        cursor.expect_word("jet")?;
        cursor.expect(Symbol::DoubleColon)?;
        let name = cursor.name()?;
        let arguments = self.arguments(cursor)?;
        Ok(ExprForm::Jet(name, arguments))
    }

    /// `name(expr, ..)`
    #[tactic(auto, unfolding(hl_grammar::specs::Read::expr_form))]
    pub fn call_form(&self, cursor: &mut Cursor<'_>) -> Result<ExprForm, Refused>
        requires { NestsIn self.now (F.pre self.now.expr) (F.post self.now.expr) }
        ensures { Reads (form_in self.now ExprAlternative.Call cursor.old) result cursor.new }
    {
        let name = cursor.call_name()?;
        let arguments = self.arguments(cursor)?;
        Ok(ExprForm::Call(name, arguments))
    }

    /// `<type>::into(expr)`
    #[tactic(auto, unfolding(hl_grammar::specs::Read::expr_form))]
    pub fn into_form(&self, cursor: &mut Cursor<'_>) -> Result<ExprForm, Refused>
        requires { NestsIn self.now (F.pre self.now.expr) (F.post self.now.expr) }
        ensures { Reads (form_in self.now ExprAlternative.Into cursor.old) result cursor.new }
    {
        cursor.expect(Symbol::Less)?;
        let kind = type_text(self.alloc, cursor, self.depth)?;
        cursor.expect(Symbol::Greater)?;
        cursor.expect(Symbol::DoubleColon)?;
        cursor.expect_word("into")?;
        let operand = self.in_parentheses(cursor)?;
        Ok(ExprForm::Into(kind, operand))
    }

    /// `for_while::<name>(expr, expr)`
    #[tactic(auto, unfolding(hl_grammar::specs::Read::expr_form))]
    pub fn for_while_form(&self, cursor: &mut Cursor<'_>) -> Result<ExprForm, Refused>
        requires { NestsIn self.now (F.pre self.now.expr) (F.post self.now.expr) }
        ensures { Reads (form_in self.now ExprAlternative.ForWhile cursor.old) result cursor.new }
    {
        cursor.expect_word("for_while")?;
        cursor.expect(Symbol::DoubleColon)?;
        cursor.expect(Symbol::Less)?;
        let function = cursor.name()?;
        cursor.expect(Symbol::Greater)?;
        let (start, context) = self.two_arguments(cursor)?;
        Ok(ExprForm::ForWhile(function, start, context))
    }

    /// `unwrap_left::<type>(expr)`
    pub fn unwrap_left_form(&self, cursor: &mut Cursor<'_>) -> Result<ExprForm, Refused>
        requires { NestsIn self.now (F.pre self.now.expr) (F.post self.now.expr) }
        ensures { Reads (form_in self.now ExprAlternative.UnwrapLeft cursor.old) result cursor.new }
    {
        let (kind, operand) = self.typed(cursor, "unwrap_left")?;
        Ok(ExprForm::UnwrapLeft(kind, operand))
    }

    /// `unwrap_right::<type>(expr)`
    pub fn unwrap_right_form(&self, cursor: &mut Cursor<'_>) -> Result<ExprForm, Refused>
        requires { NestsIn self.now (F.pre self.now.expr) (F.post self.now.expr) }
        ensures { Reads (form_in self.now ExprAlternative.UnwrapRight cursor.old) result cursor.new }
    {
        let (kind, operand) = self.typed(cursor, "unwrap_right")?;
        Ok(ExprForm::UnwrapRight(kind, operand))
    }

    /// `is_none::<type>(expr)`
    pub fn is_none_form(&self, cursor: &mut Cursor<'_>) -> Result<ExprForm, Refused>
        requires { NestsIn self.now (F.pre self.now.expr) (F.post self.now.expr) }
        ensures { Reads (form_in self.now ExprAlternative.IsNone cursor.old) result cursor.new }
    {
        let (kind, operand) = self.typed(cursor, "is_none")?;
        Ok(ExprForm::IsNone(kind, operand))
    }

    /// `fold::<name, count>(expr, expr)`
    pub fn fold_form(&self, cursor: &mut Cursor<'_>) -> Result<ExprForm, Refused>
        requires { NestsIn self.now (F.pre self.now.expr) (F.post self.now.expr) }
        ensures { Reads (form_in self.now ExprAlternative.Fold cursor.old) result cursor.new }
    {
        let (function, count, list, start) = self.counted(cursor, "fold")?;
        Ok(ExprForm::Fold(function, count, list, start))
    }

    /// `array_fold::<name, count>(expr, expr)`
    pub fn array_fold_form(&self, cursor: &mut Cursor<'_>) -> Result<ExprForm, Refused>
        requires { NestsIn self.now (F.pre self.now.expr) (F.post self.now.expr) }
        ensures { Reads (form_in self.now ExprAlternative.ArrayFold cursor.old) result cursor.new }
    {
        let (function, count, array, start) = self.counted(cursor, "array_fold")?;
        Ok(ExprForm::ArrayFold(function, count, array, start))
    }
}
