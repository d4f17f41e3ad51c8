//! Places that one writer fills in order while others read, and a mark that it leaves at its end.
#![tactic(auto)]

mod inbox;
mod laws;
mod steps;

pub use inbox::{Inbox, InboxSeat};
pub use laws::{a_mark_tells_the_end, what_was_got_was_pushed};
pub use steps::InboxView;
