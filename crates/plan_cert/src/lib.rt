//! The tables of a certificate, in the text form of VDV 451: X_PREIS and X_KLASSENPREIS with the kept prices of the four passes, X_MARKE
//! with the marks of open duties of passes 3 and 4, and X_UMARKE with the marks of open blocks of passes 1 and 2. They are this project's
//! own. A certificate is written as these tables, and read from tables or refused at the first place where they are none.
#![tactic(auto)]

mod blocks;
mod cert;
mod columns;
mod duties;
mod entries;
mod fault;
mod laws;
mod marks;
mod numbers;
mod prices;
mod reading;
mod rows;
mod shape;
mod slots;
mod table;
mod writing;

pub use cert::{Cert, CertPart, Pass};
pub use fault::{CertFault, CertTable, Place};
pub use laws::certificates_are_read_back;
pub use reading::read_cert;
pub use writing::write_cert;
