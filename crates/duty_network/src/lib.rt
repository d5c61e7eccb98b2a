//! What a list of pieces is worth as a duty of a group of drivers under Regulation (EC) 561/2006: crew scheduling as a set partitioning
//! problem. Pieces are items, groups of drivers are classes.
#![tactic(auto)]

mod columns;
mod courses;
mod followers;
mod laws;
mod layout;
mod marks;
mod net;
mod numbering;
mod pauses;
mod way_times;

pub use followers::{Follower, Followers};
pub use laws::counted_duties;
pub use net::DutyNet;
pub use numbering::PieceNumbers;
