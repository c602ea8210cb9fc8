//! What holds expressions takes the reader of those as a parameter, so that each rule is proved by
//! itself.

ghost use Rattle.std.specs.Prelude.{◌≡◌};
ghost use Rattle.simplicityhl.specs.Grammar.{expr_of};
ghost use Rattle.hl_grammar.specs.Read as read;
ghost use Rattle.hl_operands.specs.Exprs.{part_in, expr_in, NestsIn};
ghost use Rattle.hl_cursor.specs.Gives.{Gives, Reads, listed_of};

use hl_cursor::{Cursor, Listed, Refused};
use hl_syntax::{Expr, ExprForm, Exprs, Symbol};
use lists::Boxed as Box;
use std::alloc::Global;

/// How the expressions in an expression are read: those of value texts alone, or all.
///
/// A method takes the tokens of what it reads from the cursor, or refuses with the cursor at the
/// token that is refused: `Syntax` where the tokens begin nothing such, `TooDeep` where something
/// in it is nested too deep, `OutOfMemory`.
#[derive(Clone, Copy)]
pub struct Inner<F> {
    pub alloc: Global,
    /// How many expressions may stand in one another.
    pub depth: u8,
    pub values_only: bool,
    /// Reads an expression that is nested less than so deep.
    pub expr: F,
}

impl<F: Fn(Global, &mut Cursor<'_>, u8) -> Result<Expr, Refused>> Inner<F> {
    /// An expression, read by the reader of those.
    pub fn expr(&self, cursor: &mut Cursor<'_>) -> Result<Expr, Refused>
        requires { NestsIn self.now (F.pre self.now.expr) (F.post self.now.expr) }
        ensures { Reads (expr_in self.now cursor.old) result cursor.new }
    {
        (self.expr)(self.alloc, cursor, self.depth)
    }

    /// An expression, put on the heap at once.
    pub fn boxed(&self, cursor: &mut Cursor<'_>) -> Result<Box<Expr>, Refused>
        requires { NestsIn self.now (F.pre self.now.expr) (F.post self.now.expr) }
        ensures { Reads (expr_in self.now cursor.old) result cursor.new }
    {
        let expr = self.expr(cursor)?;
        Ok(Box::new(self.alloc, expr)?)
    }

    /// Expressions up to a closing bracket, which is taken too.
    #[tactic(auto, using(hl_cursor::proofs::Turns::turn, hl_cursor::proofs::Turns::over))]
    fn list(&self, cursor: &mut Cursor<'_>, close: Symbol) -> Result<Listed<Expr>, Refused>
        requires { NestsIn self.now (F.pre self.now.expr) (F.post self.now.expr) }
        ensures { Gives listed_of (read.many close (expr_in self.now) cursor.old) result cursor.new }
    {
        let mut items = Exprs::new(self.alloc);
        for _turn in 0..cursor.turns() {
            if cursor.take_if(close) {
                return Ok(Listed {
                    items,
                    is_open: true,
                });
            }
            items.push(self.expr(cursor)?)?;
            if cursor.take_if(close) {
                return Ok(Listed {
                    items,
                    is_open: false,
                });
            }
            cursor.expect(Symbol::Comma)?;
        }
        Err(Refused::Syntax)
    }

    /// `(expr, ..)` as an expression: a tuple, or the one that stands for itself.
    #[tactic(auto, unfolding(hl_grammar::specs::Read::parenthesised))]
    pub fn parenthesised(&self, cursor: &mut Cursor<'_>) -> Result<Expr, Refused>
        requires { NestsIn self.now (F.pre self.now.expr) (F.post self.now.expr) }
        ensures { Reads (read.parenthesised (λ es. expr_of (ExprForm.Tuple es)) (expr_in self.now) cursor.old)
            result cursor.new }
    {
        let first = cursor.tokens();
        cursor.expect(Symbol::OpenParenthesis)?;
        let listed = self.list(cursor, Symbol::CloseParenthesis)?;
        let span = cursor.since(first);
        match listed.alone() {
            Ok(only) => Ok(only),
            Err(items) => Ok(Expr {
                form: ExprForm::Tuple(items),
                span,
            }),
        }
    }

    /// `(expr)`
    #[tactic(auto, unfolding(hl_grammar::specs::Read::in_parentheses))]
    pub fn in_parentheses(&self, cursor: &mut Cursor<'_>) -> Result<Box<Expr>, Refused>
        requires { NestsIn self.now (F.pre self.now.expr) (F.post self.now.expr) }
        ensures { Reads (part_in self.now read.in_parentheses cursor.old) result cursor.new }
    {
        cursor.expect(Symbol::OpenParenthesis)?;
        let operand = self.boxed(cursor)?;
        cursor.expect(Symbol::CloseParenthesis)?;
        Ok(operand)
    }

    /// `[expr, ..]`
    #[tactic(auto, unfolding(hl_grammar::specs::Read::in_brackets))]
    pub fn in_brackets(&self, cursor: &mut Cursor<'_>) -> Result<Exprs, Refused>
        requires { NestsIn self.now (F.pre self.now.expr) (F.post self.now.expr) }
        ensures { Reads (part_in self.now read.in_brackets cursor.old) result cursor.new }
    {
        cursor.expect(Symbol::OpenBracket)?;
        Ok(self.list(cursor, Symbol::CloseBracket)?.items)
    }

    /// `(expr, ..)`
    #[tactic(auto, unfolding(hl_grammar::specs::Read::arguments))]
    pub fn arguments(&self, cursor: &mut Cursor<'_>) -> Result<Exprs, Refused>
        requires { NestsIn self.now (F.pre self.now.expr) (F.post self.now.expr) }
        ensures { Reads (part_in self.now read.arguments cursor.old) result cursor.new }
    {
        cursor.expect(Symbol::OpenParenthesis)?;
        Ok(self.list(cursor, Symbol::CloseParenthesis)?.items)
    }
}
