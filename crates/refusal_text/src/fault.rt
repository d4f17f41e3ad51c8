//! What a fault tells in its line.
ghost use Rattle.std.specs.Prelude.{◌≡◌, ℕ, List, [], IfOk, IsErr, map};
ghost use Rattle.std.specs.Option.{option_map_or};
ghost use Rattle.fault_table.specs.Tables as tables;
ghost use Rattle.fault_table.specs.Tables.{told_key};
ghost use Rattle.refusal_text.specs.Lines.{refusal_line};

use crate::line::refusal_line;
use fault_table::{Entry, EntryKey};
use party_names::Names;
use std::alloc::{AllocError, Global};

/// A fault of which the line of a refusal tells.
pub trait Fault {
    /// The part that refuses.
    ghost part: { Self → List ℕ };

    /// The entry of the fault in its table.
    ghost entry: { Self → tables.Entry };

    /// The part that refuses.
    fn part(&self) -> &'static str
        ensures { result.now ≡ part self.now };

    /// What the line tells of the fault. Want of memory has the number 0.
    fn entry(&self) -> Entry<'_>
        ensures { result ≡ entry self.now };
}

/// The line of a fault, with these keys in front of its own. Want of memory has none.
pub fn fault_line<F: Fault>(
    alloc: Global,
    names: Option<&Names>,
    front: &[EntryKey],
    fault: &F,
) -> Result<Vec<u8>, AllocError>
    ensures memory { (F.entry fault.now).number ≡ 0 → IsErr result }
    ensures line { IfOk result (λ line. line.items ≡ refusal_line (F.part fault.now)
        (option_map_or (λ n. n.now) names.entry []) (map told_key front.now) (F.entry fault.now)) }
{
    refusal_line(alloc, fault.part(), names, front, &fault.entry())
}
