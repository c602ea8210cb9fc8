//! What stands after the words of expressions: operands, types, names and counts.

ghost use Rattle.std.specs.Prelude.{◌≡◌};
ghost use Rattle.hl_syntax.specs.declared.token.Mark.{Mark};
ghost use Rattle.hl_syntax.specs.declared.tree.Expr.{Expr};
ghost use Rattle.hl_syntax.specs.declared.tree.ExprForm.{ExprForm};
ghost use Rattle.hl_syntax.specs.declared.tree.TypeText.{TypeText};
ghost use Rattle.hl_grammar.specs.Read as read;
ghost use Rattle.hl_operands.specs.Exprs.{part_in, NestsIn, applied, exclaimed, typed, named, counted, closed, last_argument};
ghost use Rattle.hl_cursor.specs.Gives.{Gives, Reads};

use crate::inner::Inner;
use hl_bindings::type_text;
use hl_cursor::{Cursor, Refused};
use hl_syntax::{Expr, Mark, Symbol, TypeText};
use lists::Boxed as Box;
use std::alloc::Global;

/// `)`, with or without a comma before it.
fn close(cursor: &mut Cursor<'_>) -> Result<(), Refused>
    ensures { (pair : Expr × Expr) → Gives (λ _. pair) (closed pair cursor.old) result cursor.new }
{
    if cursor.take_if(Symbol::Comma) {
        cursor.expect(Symbol::CloseParenthesis)
    } else {
        cursor.expect(Symbol::CloseParenthesis)
    }
}

impl<F: Fn(Global, &mut Cursor<'_>, u8) -> Result<Expr, Refused>> Inner<F> {
    /// `word(expr)`
    pub fn applied(&self, cursor: &mut Cursor<'_>, word: &str) -> Result<Box<Expr>, Refused>
        requires { NestsIn self.now (F.pre self.now.expr) (F.post self.now.expr) }
        ensures { (form : Expr → ExprForm) →
            Gives form (part_in self.now applied word.now form cursor.old) result cursor.new }
    {
        cursor.expect_word(word)?;
        Ok(self.in_parentheses(cursor)?)
    }

    /// `word!(expr)`
    pub fn exclaimed(&self, cursor: &mut Cursor<'_>, word: &str) -> Result<Box<Expr>, Refused>
        requires { NestsIn self.now (F.pre self.now.expr) (F.post self.now.expr) }
        ensures { (form : Expr → ExprForm) →
            Gives form (part_in self.now exclaimed word.now form cursor.old) result cursor.new }
    {
        cursor.expect_word(word)?;
        cursor.expect(Symbol::Exclamation)?;
        Ok(self.in_parentheses(cursor)?)
    }

    /// `::<type>`
    #[tactic(auto, unfolding(hl_grammar::specs::Read::type_argument))]
    fn type_argument(&self, cursor: &mut Cursor<'_>) -> Result<TypeText, Refused>
        ensures { Reads (part_in self.now read.type_argument cursor.old) result cursor.new }
    {
        cursor.expect(Symbol::DoubleColon)?;
        cursor.expect(Symbol::Less)?;
        let kind = type_text(self.alloc, cursor, self.depth)?;
        cursor.expect(Symbol::Greater)?;
        Ok(kind)
    }

    /// `word::<type>(expr)`
    pub(crate) fn typed(
        &self,
        cursor: &mut Cursor<'_>,
        word: &str,
    ) -> Result<(TypeText, Box<Expr>), Refused>
        requires { NestsIn self.now (F.pre self.now.expr) (F.post self.now.expr) }
        ensures { (form : TypeText → Expr → ExprForm) → Gives (λ a. form a.0 a.1)
            (part_in self.now typed word.now form cursor.old) result cursor.new }
    {
        cursor.expect_word(word)?;
        let kind = self.type_argument(cursor)?;
        let operand = self.in_parentheses(cursor)?;
        Ok((kind, operand))
    }

    /// `expr)`, with or without a comma after the expression.
    fn last_argument(&self, cursor: &mut Cursor<'_>) -> Result<Box<Expr>, Refused>
        requires { NestsIn self.now (F.pre self.now.expr) (F.post self.now.expr) }
        ensures { (pair : Expr → Expr × Expr) →
            Gives pair (part_in self.now last_argument pair cursor.old) result cursor.new }
    {
        let argument = self.boxed(cursor)?;
        close(cursor)?;
        Ok(argument)
    }

    /// `(expr, expr)`
    #[tactic(auto, unfolding(hl_grammar::specs::Read::two_arguments))]
    pub(crate) fn two_arguments(
        &self,
        cursor: &mut Cursor<'_>,
    ) -> Result<(Box<Expr>, Box<Expr>), Refused>
        requires { NestsIn self.now (F.pre self.now.expr) (F.post self.now.expr) }
        ensures { Reads (part_in self.now read.two_arguments cursor.old) result cursor.new }
    {
        cursor.expect(Symbol::OpenParenthesis)?;
        let first = self.boxed(cursor)?;
        cursor.expect(Symbol::Comma)?;
        let second = self.last_argument(cursor)?;
        Ok((first, second))
    }

    /// `::<name, count>`
    #[tactic(auto, unfolding(hl_grammar::specs::Read::counted_function))]
    fn counted_function(&self, cursor: &mut Cursor<'_>) -> Result<(Mark, Mark), Refused>
        ensures { Reads (part_in self.now read.counted_function cursor.old) result cursor.new }
    {
        cursor.expect(Symbol::DoubleColon)?;
        cursor.expect(Symbol::Less)?;
        let function = cursor.name()?;
        cursor.expect(Symbol::Comma)?;
        let count = cursor.decimal()?;
        cursor.expect(Symbol::Greater)?;
        Ok((function, count))
    }

    /// `word::<name, count>(expr, expr)`
    pub(crate) fn counted(
        &self,
        cursor: &mut Cursor<'_>,
        word: &str,
    ) -> Result<(Mark, Mark, Box<Expr>, Box<Expr>), Refused>
        requires { NestsIn self.now (F.pre self.now.expr) (F.post self.now.expr) }
        ensures { (form : Mark → Mark → Expr → Expr → ExprForm) → Gives (λ a. form a.0 a.1 a.2 a.3)
            (part_in self.now counted word.now form cursor.old) result cursor.new }
    {
        cursor.expect_word(word)?;
        let (function, count) = self.counted_function(cursor)?;
        let (first, second) = self.two_arguments(cursor)?;
        Ok((function, count, first, second))
    }

    /// `word::name`
    #[tactic(auto, unfolding(hl_grammar::specs::Read::path_name))]
    pub fn named(&self, cursor: &mut Cursor<'_>, word: &str) -> Result<Mark, Refused>
        ensures { (form : Mark → ExprForm) →
            Gives form (part_in self.now named word.now form cursor.old) result cursor.new }
    {
        cursor.expect_word(word)?;
        cursor.expect(Symbol::DoubleColon)?;
        Ok(cursor.name()?)
    }
}
