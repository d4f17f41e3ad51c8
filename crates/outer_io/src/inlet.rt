// An inlet for bytes.
ghost use Rattle.std.specs.Prelude.{◌≡◌, ◌↔◌, ◌<◌, ◌≤◌, ℕ, List, [], Some, IsTrue, length};
ghost use Rattle.outer_io.specs.declared.inlet.Filled.{Filled as Answer};
ghost use Rattle.outer_io.specs.declared.inlet.Filled.TheVariants.{Full};
ghost use Rattle.outer_io.specs.declared.inlet.Got.{Got as Read};
ghost use Rattle.outer_io.specs.declared.inlet.Got.TheVariants.{End, Failed};
ghost use Rattle.outer_io.specs.Inlet.{InletReading, ReadsInto, Fills, shut_inlet};

/// What one read of an inlet gave.
#[derive(Clone, Copy, Debug, PartialEq, Eq)]
pub enum Got {
    /// So many bytes, one at least.
    Bytes(usize),
    /// No more bytes: what came before was all.
    End,
    /// The outside failed, and nothing was taken.
    Failed,
}

/// What filling a place from an inlet gave.
#[derive(Clone, Copy, Debug, PartialEq, Eq)]
pub enum Filled {
    /// All the bytes that the place has room for.
    Full,
    /// So many bytes, fewer than the place has room for, and then the end.
    Short(usize),
    /// The outside failed.
    Faulty,
}

/// A place that bytes come from, in pieces of any length.
pub trait Inlet {
    /// The bytes that are left, where the inlet tells them, how often the outside has failed, whether the end was
    /// answered, whether the inlet is steady, and whether it was closed.
    ghost reading: { Self → InletReading };

    /// Reads the next bytes into the first places.
    fn read(&mut self, into: &mut [u8]) -> Got
        requires { 0 < length into.old }
        ensures { ReadsInto into.new (reading self.old) (reading self.new) result };

    /// Tells the other end that nothing more is read, so that nobody waits there for room. Each later read fails.
    fn close(&mut self)
        ensures { reading self.new ≡ shut_inlet (reading self.old) };
}

/// Reads until all places have their bytes, in as many reads as it takes.
pub fn fill<I: Inlet>(inlet: &mut I, into: &mut [u8]) -> Filled
    ensures { Fills into.new (I.reading inlet.old) (I.reading inlet.new) result }
{
    let mut count = 0;
    while count < into.len() {
        match inlet.read(&mut into[count..]) {
            Got::Bytes(more) => count += more,
            Got::End => return Filled::Short(count),
            Got::Failed => return Filled::Faulty,
        }
    }
    Filled::Full
}

/// A read that does not fail answers the end exactly where the inlet tells that nothing is left.
pub fn an_empty_inlet_ends()
    ensures { (into bytes : List ℕ) (before after : InletReading) (result : Read) → ReadsInto into before after result
        → before.told ≡ Some bytes → ¬ (result ≡ Failed) → (result ≡ End) ↔ (bytes ≡ []) }
{}

/// A steady inlet fills a place exactly where it has as many bytes.
pub fn a_steady_inlet_fills_what_it_can()
    ensures { (into bytes : List ℕ) (before after : InletReading) (result : Answer) → Fills into before after result
        → IsTrue before.steady → before.told ≡ Some bytes → (result ≡ Full) ↔ (length into ≤ length bytes) }
{}
