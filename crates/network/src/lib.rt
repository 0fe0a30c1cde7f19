// Networks: constraints of a catalog go in and out, and for each variable the values that are still possible can be asked, and why others are not.
#![tactic(auto)]

mod by_hand;
mod calls;
mod law;
mod network;
mod state;

pub use by_hand::{Tried, try_out};
pub use calls::{Call, Lent, perform};
pub use law::{
    Answer, Change, histories_are_steps, histories_join, histories_part, histories_right,
    steps_join, steps_part, steps_right,
};
pub use network::Network;
