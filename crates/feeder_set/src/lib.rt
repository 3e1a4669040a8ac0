//! One of several feeders: the frames of its share, fed one after the other, and the devices that
//! go down after each.
#![tactic(auto)]

mod falling;
mod feeder;
mod feeding;
mod laws;
mod share;
mod stage;

pub use falling::fall_after;
pub use feeder::Feeder;
pub use laws::each_frame_is_one_shares;
pub use share::Share;
pub use stage::Stage;
