//! Tables of the wires of a session: what is given on them, their values in the clear, and their
//! summands as the sharing equations have them, which later sessions may carry. And the word of one
//! message, by definition.
#![tactic(auto)]

mod carried;
mod deals;
mod places;
mod rows;
mod sent_rows;
mod slot_at;
mod summands;
mod values;
mod word;
mod world_data;

pub use carried::CarriedRows;
pub use deals::{deals_in, words_in};
pub use places::{first_places, pass_slot};
pub use sent_rows::slot_rows;
pub use slot_at::SlotAt;
pub use summands::SummandTable;
pub use values::{input_list, value_lists};
pub use word::word_of;
pub use world_data::WorldData;
