//! What stands in brackets.

ghost use Rattle.std.specs.Prelude.{◌≡◌};
ghost use Rattle.hl_cursor.specs.Gives.{IsAlone};

use lists::Sequence;

/// What stands in brackets, and whether a comma, or nothing at all, comes before the last bracket.
#[derive(Drop)]
pub struct Listed<T> {
    pub items: Sequence<T>,
    pub is_open: bool,
}

impl<T: Drop> Listed<T> {
    /// The one item that stands for itself.
    ///
    /// # Errors
    ///
    /// The items of a tuple, where there isn't one alone.
    #[tactic(auto, using(crate::proofs::Alone::alone_one, crate::proofs::Alone::not_alone))]
    pub fn alone(self) -> Result<T, Sequence<T>>
        ensures { IsAlone self.items self.is_open result }
    {
        let Listed { items, is_open } = self;
        if is_open || items.len() != 1 {
            return Err(items);
        }
        let mut items = items.into_vec();
        Ok(items.remove(0))
    }
}
