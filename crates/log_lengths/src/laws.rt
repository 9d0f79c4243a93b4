//! What holds of the text of every legal log. The function is a law: it does nothing, and its contract says what holds.

ghost use Rattle.log_lengths.specs.TextLengths.{LogTextsAreShort};

/// The text of a log of a run that passes no limit is within the limit of a log's file.
pub fn log_texts_are_short()
    ensures { LogTextsAreShort }
{}
