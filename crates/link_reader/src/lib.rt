//! The reading of one peer beside the party that it is for: its hello, its frames, and their words into an inbox.
#![tactic(auto)]

mod expected;
mod heard;
mod incoming_talk;
mod laws;
mod read_words;
mod reader;
mod threads;
mod waker;

pub use expected::message_places;
pub use incoming_talk::IncomingTalk;
pub use laws::{
    a_reader_reads_a_run, a_reader_tells_its_cause, readers_break_off, readers_talk_through,
};
pub use reader::LinkReader;
pub use waker::{CountsTokens, PartyParker, Waker};
