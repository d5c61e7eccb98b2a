//! What a day is and which trips it has, as tables of whole numbers in the text form of VDV 451.
//!
//! The tables' names and those of their columns follow VDV 452 where that has the matter: BETRIEBSTAG, TAGESART_NR and
//! BASIS_VERSION of FIRMENKALENDER, FRT_FID and LI_NR of REC_FRT. Moments are seconds of the operating day, lengths metres.
#![tactic(auto)]

mod writing;

pub use writing::tables_of_day;
