// The core language, defined once for every layer that speaks of it, and its laws: each function below has no body, and its contract is a law.
#![tactic(auto)]

ghost use Rattle.simplicity.specs.Laws.{CellsFill, CodeDetermines, BelowOrders, ShrinkKeeps, MeaningKeeps, NodesUnfold, TreesAreTyped, NaturalsAgree, SpellingDetermines, StreamDetermines, LeastIsOne, AcceptedAsOne, WordsAreTerms, OrderPlaces};
ghost use Rattle.simplicity.specs.TermLaws.{TuplesHalve, PlacesAreTyped, MadeIsTyped, FlowedIsTyped, WordsAreDigits, LoopsJoin};

/// A value of a type has as many cells as the type's size.
pub fn cells_fill_law()
    ensures { CellsFill }
{}

/// Values of one type are told apart by their compact codes, whatever bits follow.
pub fn code_determines_law()
    ensures { CodeDetermines }
{}

/// `≤` on types, by which least typings are compared, is a partial order.
pub fn below_orders_law()
    ensures { BelowOrders }
{}

/// A value shrunk to a type at or below its own is of that type.
pub fn shrink_keeps_law()
    ensures { ShrinkKeeps }
{}

/// The meaning of a typed term on a value of its source is failure or a value of its target.
pub fn meaning_keeps_law()
    ensures { MeaningKeeps }
{}

/// Each shown node of a placed list unfolds to its tree.
pub fn nodes_unfold_law()
    ensures { NodesUnfold }
{}

/// The tree of a node of a placed and typed list has the node's arrow.
pub fn trees_are_typed_law()
    ensures { TreesAreTyped }
{}

/// The function that gives a natural's code and the relation by cases agree.
pub fn naturals_agree_law()
    ensures { NaturalsAgree }
{}

/// A list of nodes and the bytes that spell it determine each other.
pub fn spelling_determines_law()
    ensures { SpellingDetermines }
{}

/// Values of given types and the bytes of their stream determine each other.
pub fn stream_determines_law()
    ensures { StreamDetermines }
{}

/// A list has at most one least typing with a root arrow.
pub fn least_is_one_law()
    ensures { LeastIsOne }
{}

/// A program and a stream are accepted at an arrow as at most one list, typing and witness.
pub fn accepted_as_one_law()
    ensures { AcceptedAsOne }
{}

/// A word has the root and the meaning of the term that pairs its halves.
pub fn words_are_terms_law()
    ensures { WordsAreTerms }
{}

/// Each node of an ordered list is in its place.
pub fn order_places_law()
    ensures { OrderPlaces }
{}

/// More than one value or type are the tuple of the first half beside that of the rest.
pub fn tuples_halve_law()
    ensures { TuplesHalve }
{}

/// A term that is typed at every place has its arrow by the typing table on trees.
pub fn places_are_typed_law()
    ensures { PlacesAreTyped }
{}

/// What is made of terms that are typed at every place is typed at every place, where its parts go together.
pub fn made_is_typed_law()
    ensures { MadeIsTyped }
{}

/// A term with its arrows from a source is the term, and is typed if it can start there.
pub fn flowed_is_typed_law()
    ensures { FlowedIsTyped }
{}

/// Digits are the numbers of their width, and the values of its type.
pub fn words_are_digits_law()
    ensures { WordsAreDigits }
{}

/// Folds and runs of turns go one after the other, and a loop with a counter is a run.
pub fn loops_join_law()
    ensures { LoopsJoin }
{}
