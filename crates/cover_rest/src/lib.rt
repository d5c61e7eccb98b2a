//! The rest of a set partitioning problem, of which some columns have begun, as replanning from a moment asks for it.
//!
//! What has begun stays: a *head* is a class with the first items of a column, and says whether more may follow. The items of the rest are
//! first the heads, each as one item, and then the items in no head, by number. A list of the rest is *written out* by putting the
//! head's items in the head's place, and is worth what the written-out list is. The plans of the rest, written out, are exactly the plans
//! that keep the heads; so a bound on the ones is a bound on the others.
#![tactic(auto)]

mod begun;
mod laws;
mod member;
mod stand;
mod write;

pub use begun::Begun;
pub use laws::{bodies_stand_for_all, rest_is_kept};
pub use member::is_rest_list;
pub use stand::{bodies, body};
pub use write::written_out;
