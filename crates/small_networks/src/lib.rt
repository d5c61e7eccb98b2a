//! Small networks, and what is read from their texts: networks, days, and settings of duties. Tests share them, and give rows of their own.
#![tactic(auto)]

mod demo_network;
mod given_rows;
mod line_days;
mod reading;
mod settings;

pub use demo_network::DEMO;
pub use given_rows::{Rows, TableRows, text_of, whole_text};
pub use line_days::{LineRows, SHUTTLE, line_day, line_text};
pub use reading::{day_in, day_kind, day_over, network, network_in};
pub use settings::{DEPOT, STOP, driver_settings};
