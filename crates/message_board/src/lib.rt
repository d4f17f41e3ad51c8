//! Numbered cells that messages are left in, each empty or holding one word for good, and slots that pass items on.
#![tactic(auto)]

mod board;
mod cells;
mod closed;
mod flags;
mod plain;
mod room;
mod seat_at;
mod steps;

pub use board::{Board, BoardSeat};
pub use cells::{Cells, Posted};
pub use closed::ClosedBoard;
pub use plain::PlainCells;
pub use seat_at::SeatAt;
pub use steps::{About, Promise, SlotItem, View};
