//! The text of a view: of what a group sees of a run, message by message. And what the line of an output begins with:
//! whoever writes a run, a node's or a whole one, has both from here.
#![tactic(auto)]

mod lines;
mod outputs;

pub use lines::{gather_message_line, gather_view_head, touches};
pub use outputs::{gather_out_head, is_read, value_of};
