//! The text of an audit that says yes.
ghost use Rattle.outer_io.specs.Sink.{Writes};
ghost use Rattle.output_text.specs.AuditText.{yes_text};

use crate::check::gather_count;
use outer_io::{Blocks, Failed, Sink};

/// Writes `yes`, and how many messages the view has that was checked. It takes no memory.
pub fn write_yes<S: Sink>(sink: &mut S, count: u32) -> Result<(), Failed>
    ensures { Writes (yes_text count) (S.reading sink.old) (S.reading sink.new) result }
{
    let mut blocks = Blocks::new(sink);
    gather_count(&mut blocks, "yes", count as u64);
    blocks.finish()
}
