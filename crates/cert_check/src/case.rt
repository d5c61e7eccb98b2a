//! What the checker is handed.

use day_model::Day;
use std::marker::Model;
use vdv451_text::Table;

/// What the checker is handed: a day, the table REC_FRT that its trips were read from, and the tables of a plan and of a certificate.
#[derive(Drop)]
pub struct Case<'c> {
    /// The day.
    pub day: &'c Day,
    /// The table that the day's trips were read from.
    pub rec_frt: &'c Table,
    /// The tables of the plan.
    pub plan: &'c [Table],
    /// The tables of the certificate.
    pub cert: &'c [Table],
}

impl<'c> Model for Case<'c> {
    ghost use Rattle.cert_check.specs.Judging.{Case};

    ghost Value = { Case };

    ghost view = { λ c. record { day = c.day.now; rec_frt = c.rec_frt.now; plan = c.plan.now; cert = c.cert.now } };
}
