//! That numbers are read as they are written.
ghost use Rattle.party_file.specs.GivenNumbers.{InputsAreNumbers};

/// The words that a file gives in a session of numbers stand for the numbers that are written there.
pub fn inputs_are_numbers()
    ensures { InputsAreNumbers }
{}
