//! Groups of parties as sets, and lists of groups.
#![tactic(auto)]

mod group;
mod groups;
mod limits;
mod mask;

pub use group::Group;
pub use groups::Groups;
pub use limits::{MOST_GROUPS, MOST_PARTIES};
pub use mask::{group_of_mask, has_party, party_mask, with_party};
