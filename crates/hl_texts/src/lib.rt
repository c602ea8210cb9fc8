//! Laws of the texts of values: each function below has no body, and its contract is a law.
#![tactic(auto)]

ghost use Rattle.hl_texts.specs.RoundTrip.{DeeperIsNoText, PrintedIsRead, ReadsAgain, TextIsOne};

/// The printed text of a value is a value text for this value, where it is nested at most as deep
/// as the grammar allows.
pub fn printed_values_are_read()
    ensures { PrintedIsRead }
{}

/// The printed text of a value that is nested deeper is no value text.
pub fn deeper_values_are_refused()
    ensures { DeeperIsNoText }
{}

/// A text is a value text of a type for one value at most.
pub fn texts_are_one_value()
    ensures { TextIsOne }
{}

/// Reading what was printed answers the value again, or that memory was short.
pub fn reading_answers_again()
    ensures { ReadsAgain }
{}
