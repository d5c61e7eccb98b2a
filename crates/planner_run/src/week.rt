//! The command `week`: what articles 6 and 8 of Regulation (EC) 561/2006 deny of drivers' duties over up to two weeks.

ghost use Rattle.std.specs.Prelude.{◌≡◌, ◌<◌, ◌^◌, All, IfOk, IfErr, length};
ghost use Rattle.week_check.specs.Duties.{IsRoster};
ghost use Rattle.planner_run.specs.WeekText.{IsVerdictText, IsWeekRefused, IsWeekText, roster_status as roster_status_of};

use crate::status::{InputFault, Status};
use plan_core::{Bytes, Memory};
use std::alloc::Global;
use vdv451_text::{Table, write_tables};
use week_check::{RosterFault, Turn, denials, read_roster, verdict_table};

/// The status for a roster that is refused.
fn roster_status(fault: RosterFault) -> Status
    ensures { result ≡ roster_status_of fault }
{
    match fault {
        RosterFault::Table(fault) => Status::Input(InputFault::Table(fault)),
        RosterFault::Days { first, last } => Status::Input(InputFault::Days { first, last }),
        RosterFault::Memory => Status::Memory,
    }
}

/// The text of what is denied of duties.
fn verdict_text(alloc: Global, turns: &[Turn]) -> Result<Bytes, Memory>
    requires roster { IsRoster turns.now }
    requires few { length turns.now < 2 ^ 32 }
    ensures { IfOk result (IsVerdictText turns.now) }
{
    let found = denials(alloc, turns)?;
    let table = verdict_table(alloc, found.as_slice())?;
    write_tables(alloc, &[table])
}

/// The text of the table X_URTEIL: each denial of articles 6(1) to 6(3), 8(2) and 8(4) of the duties in the table X_EINSATZ, once, by
/// driver, article, first day and last day.
///
/// # Errors
///
/// `Input` with the first fault of X_EINSATZ, or else with its first and last day where these are 14 or more days apart; and `Memory`.
pub fn week_text(alloc: Global, tables: &[Table]) -> Result<Bytes, Status>
    requires { All (λ table. length table.rows < 2 ^ 32) tables.now }
    ensures written { IfOk result (IsWeekText tables.now) }
    ensures cause { IfErr result (IsWeekRefused tables.now) }
{
    let turns = match read_roster(alloc, tables) {
        Ok(turns) => turns,
        Err(fault) => return Err(roster_status(fault)),
    };
    match verdict_text(alloc, turns.as_slice()) {
        Ok(text) => Ok(text),
        Err(Memory) => Err(Status::Memory),
    }
}
