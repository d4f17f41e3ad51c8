//! The slots of a session: a circuit with those who give and read its values, what each slot is of, and the wires and
//! rows of each.
#![tactic(auto)]

mod side;
mod slot_content;
mod slot_kind;
mod slot_list;
mod slot_wires;
mod source;
mod touched;
mod values;
mod wiring;

pub use side::{Side, operand};
pub use slot_content::SlotContent;
pub use slot_kind::SlotKind;
pub use source::Source;
pub use touched::{Reads, Touched, completed, read_wires};
pub use values::{InputValue, KeptWire, OutputValue, Owner};
pub use wiring::Wiring;
