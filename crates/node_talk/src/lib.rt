//! One party of a job run by itself: what it says to each other party and hears from it, and why it stops.
#![tactic(auto)]

mod fault;
mod laws;

pub use fault::NodeFault;
pub use laws::{
    a_node_keeps_its_own_view, a_run_stops_at_one_place, a_talk_is_said,
    an_inlet_holds_one_longest_run, messages_stand_at_their_places, no_cause_where_all_is_heard,
    nodes_among_a_world_are_of_it, what_peers_say_is_all_that_is_expected,
};
