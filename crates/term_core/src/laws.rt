//! Laws of tables of terms: each function below has no body, and its contract is a law.

ghost use Rattle.term_core.specs.Laws.{TermsStay, StandingStays, TermsAreTyped};

/// An id means the same once the table and its types have grown.
pub fn terms_stay_law()
    ensures { TermsStay }
{}

/// A table stands over its types once they have grown.
pub fn standing_stays_law()
    ensures { StandingStays }
{}

/// The terms of a table meet the typing table at every place.
pub fn terms_are_typed_law()
    ensures { TermsAreTyped }
{}
