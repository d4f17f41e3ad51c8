//! A checker of written views: whether a text has, message by message, what a group sees of a run of a job whose
//! inputs and tapes are all known.
#![tactic(auto)]

mod fault;
mod head;
mod laws;
mod message_line;
mod messages;
mod numbers;
mod parts;
mod text_lines;
mod view_line;
mod view_lines;
mod written_line;

pub use fault::CheckFault;
pub use laws::{
    all_see_all, each_text_has_one_answer, heads_are_read, own_views_have_all,
    written_views_are_accepted, wrong_words_are_others, yes_is_a_view,
};
pub use messages::check;
