//! Laws of the readings: each function has no body, and its contract is a law.

ghost use Rattle.hl_files.specs.Reads.{IsOneReading, IsOneWantedReading};

/// A text and names have one answer at most, but for want of memory.
pub fn one_reading_law()
    ensures { IsOneReading }
{}

/// The same for wanted names.
pub fn one_wanted_reading_law()
    ensures { IsOneWantedReading }
{}
