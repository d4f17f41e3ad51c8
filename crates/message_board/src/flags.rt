//! The flags of cells. 64 cells share a full word, in which each has one bit.
ghost use Rattle.std.specs.Prelude.{◌≡◌};
ghost use Rattle.message_board.specs.Words.{full_words, full_word, flag, flag_bit};

/// How many full words `cells` cells have.
pub fn full_words_of(cells: u32) -> usize
    ensures { result ≡ full_words cells }
{
    (cells as usize + 63) / 64
}

/// Which full word the cell has, from 0.
pub fn full_word_of(cell: u32) -> usize
    ensures { result ≡ full_word cell }
{
    cell as usize / 64
}

/// The word in which the flag of the cell alone is set.
pub fn bit_of(cell: u32) -> u64
    ensures { result ≡ flag_bit cell }
{
    1 << (cell % 64)
}

/// The flag of the cell in its full word: 1 where it is full, else 0.
pub fn flag_of(cell: u32, full: u64) -> u64
    ensures { result ≡ flag cell full }
{
    full >> (cell % 64) & 1
}
