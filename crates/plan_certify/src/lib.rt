//! The certificate of the plan of a day: for each of the four passes the prices and class prices that were kept, and the least cover of
//! open blocks or open duties under them, which shows without any search that they are paid.
//!
//! [`certificate_text`] plans a day as `plan_command` does and writes the certificate of its plan in the text form of VDV 451.
//! `specs/Certificate.antt` says what the text is. The marks of a part are exactly those of open blocks or duties to which no other mark
//! is at least as good, so a planned day has one certificate, and a day that is planned by fixed rounds one text
//! ([`day_is_certified_once`]).
#![tactic(auto)]

mod laws;
mod parts;
mod whole;

pub use laws::{day_is_certified_once, days_alike_are_certified_alike};
pub use whole::{certificate_of, certificate_text};
