//! A picture of a plan: one page of HTML that any browser shows without a network.
#![tactic(auto)]

mod blocks;
mod duties;
mod frame;
mod laws;
mod layout;
mod marks;
mod page;
mod parts;

pub use laws::escaped_text_is_no_markup;
pub use page::chart;
