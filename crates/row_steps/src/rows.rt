//! Words of rows: dealt, drawn, put and read.
ghost use Rattle.std.specs.Prelude.{◌≡◌, ◌+◌, ◌-◌, ◌*◌, ◌^◌, ◌<◌, ◌≤◌, if◌then◌else◌, All, length, nat_eq, slice_index, drop};
ghost use Rattle.circuit_model.specs.Circuits.{set_at};
ghost use Rattle.secret_sharing.specs.Schemes.{Scheme, dealt};
ghost use Rattle.share_layout.specs.Layouts.{least_holder};
ghost use Rattle.row_steps.specs.Rows.{row, SameRow, SameRows, least_held};

use mpc_ring::Ring;
use share_layout::Layout;
use tape_words::Tape;

/// Deals `value` into row `number`.
#[inline(always)]
pub fn deal_row(
    ring: Ring,
    shares: usize,
    value: u64,
    tape: &mut Tape,
    table: &mut [u64],
    number: usize,
)
    requires value { value < 2 ^ ring }
    requires words { All (λ x. x < 2 ^ ring) tape.old }
    requires many { (0 < shares) × (shares - 1 ≤ length tape.old) }
    requires row { (number + 1) * shares ≤ length table.old }
    requires small { All (λ x. x < 2 ^ ring) table.old }
    ensures tape { tape.new ≡ drop (shares - 1) tape.old }
    ensures small { All (λ x. x < 2 ^ ring) table.new }
    ensures rows { (s : Scheme) → s.modulus ≡ 2 ^ ring → s.shares ≡ shares
        → SameRows shares (row shares table.new)
        (set_at (row shares table.old) number (dealt s value (slice_index tape.old))) }
{
    let first = number * shares;
    deal_step::deal(ring, value, tape, &mut table[first..first + shares]);
}

/// Draws the summands of row `number` of which party `p` is the least holder: each is the next word of the tape.
pub fn draw_row(
    ring: Ring,
    layout: &Layout,
    p: u32,
    tape: &mut Tape,
    table: &mut [u64],
    number: usize,
)
    requires words { All (λ x. x < 2 ^ ring) tape.old }
    requires many { least_held layout.now p (length layout.now.groups) ≤ length tape.old }
    requires row { (number + 1) * length layout.now.groups ≤ length table.old }
    requires small { All (λ x. x < 2 ^ ring) table.old }
    ensures tape { tape.new ≡ drop (least_held layout.now p (length layout.now.groups)) tape.old }
    ensures small { All (λ x. x < 2 ^ ring) table.new }
    ensures rows { SameRows (length layout.now.groups) (row (length layout.now.groups) table.new)
        (set_at (row (length layout.now.groups) table.old) number
        (λ i. if nat_eq (least_holder layout.now i) p then slice_index tape.old (least_held layout.now p i)
        else row (length layout.now.groups) table.old number i)) }
{
    let shares = layout.shares();
    for i in 0..shares {
        let at = number * shares as usize + i as usize;
        table[at] = drawn_or(ring, layout.least_holder(i) == p, tape, table[at]);
    }
}

// The next word of the tape, where it is to be drawn, and else this one.
fn drawn_or(ring: Ring, draws: bool, tape: &mut Tape, other: u64) -> u64
    requires words { All (λ x. x < 2 ^ ring) tape.old }
    requires some { (if draws then 1 else 0) ≤ length tape.old }
    requires other { other < 2 ^ ring }
    ensures is { result ≡ (if draws then slice_index tape.old 0 else other) }
    ensures below { result < 2 ^ ring }
    ensures tape { tape.new ≡ drop (if draws then 1 else 0) tape.old }
    ensures words { All (λ x. x < 2 ^ ring) tape.new }
{
    if draws {
        deal_step::next_word(ring, tape)
    } else {
        other
    }
}

/// The summands in row `number`.
pub fn row_at(shares: usize, table: &[u64], number: usize) -> &[u64]
    requires row { (number + 1) * shares ≤ length table.now }
    ensures count { length result.now ≡ shares }
    ensures row { SameRow shares (slice_index result.now) (row shares table.now number) }
{
    let first = number * shares;
    &table[first..first + shares]
}

/// Puts a word into row `number`.
pub fn put_word(
    ring: Ring,
    shares: usize,
    table: &mut [u64],
    number: usize,
    share: usize,
    word: u64,
)
    requires small { All (λ x. x < 2 ^ ring) table.old }
    requires word { word < 2 ^ ring }
    requires within { share < shares }
    requires row { (number + 1) * shares ≤ length table.old }
    ensures small { All (λ x. x < 2 ^ ring) table.new }
    ensures rows { SameRows shares (row shares table.new)
        (set_at (row shares table.old) number (set_at (row shares table.old number) share word)) }
{
    let _ = ring;
    table[number * shares + share] = word;
}
