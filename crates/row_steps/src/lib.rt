//! Steps on rows of summands in a table. A row has the summands of the wire to which it is given, and row `number`
//! begins at `number * shares`.
#![tactic(auto)]

mod gates;
mod opener;
mod products;
mod rows;

pub use gates::{linear, linear_count, linear_gates, on_rows};
pub use opener::Opener;
pub use products::{join_row, sum_row};
pub use rows::{deal_row, draw_row, put_word, row_at};
