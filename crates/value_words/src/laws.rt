//! That numbers and words are one another's.
ghost use Rattle.value_words.specs.Turned.{NumbersComeBack, WordsComeBack};

/// A number that was read as the words of wires is written as that number.
pub fn numbers_come_back()
    ensures { NumbersComeBack }
{}

/// A value that was written as numbers is read as the words that it had.
pub fn words_come_back()
    ensures { WordsComeBack }
{}
