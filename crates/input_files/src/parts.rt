//! The tables of all files, and those of a plan and a certificate behind the planning files, or of an earlier plan behind them.

ghost use Rattle.std.specs.Prelude.{◌≡◌, ◌≤◌, ◌<◌, ◌^◌, ◌++◌, ◌∷◌, [], All, IsTrue, IfOk, length};
ghost use Rattle.vdv451_text.specs.Plain.{are_plain};
ghost use Rattle.input_files.specs.Parts.{joined};

use plan_core::{Memory, Seq};
use std::alloc::Global;
use vdv451_text::Table;

/// The tables of all files, one file after another.
///
/// # Errors
///
/// [`Memory`] where it is refused.
pub fn join_tables(alloc: Global, parts: Seq<Seq<Table>>) -> Result<Vec<Table>, Memory>
    ensures all { IfOk result (λ tables. tables.items ≡ joined parts) }
    ensures plain { All (λ tables. IsTrue (are_plain tables)) parts → IfOk result (λ tables. IsTrue (are_plain tables.items)) }
    ensures sized { All (λ tables. All (λ table. length table.rows < 2 ^ 32) tables) parts → IfOk result (λ tables. All (λ table. length table.rows < 2 ^ 32) tables.items) }
{
    let mut tables = Vec::new(alloc);
    for part in parts.into_vec() {
        let mut more = part.into_vec();
        tables.append(&mut more)?;
    }
    Ok(tables)
}

/// What a check reads: the tables of the planning files, file by file, those of a plan, and those of its certificate.
#[derive(Drop)]
pub struct CheckParts {
    /// The tables of each planning file.
    pub planning: Seq<Seq<Table>>,
    /// The tables of the plan.
    pub plan: Seq<Table>,
    /// The tables of the certificate.
    pub cert: Seq<Table>,
}

/// Takes the last two files off the others: a plan, and its certificate.
pub fn split_plan(parts: Seq<Seq<Table>>) -> CheckParts
    requires { 2 ≤ length parts }
    ensures parts { parts ≡ result.planning ++ result.plan ∷ result.cert ∷ [] }
    ensures plain { All (λ tables. IsTrue (are_plain tables)) parts → All (λ tables. IsTrue (are_plain tables)) result.planning × IsTrue (are_plain result.plan) × IsTrue (are_plain result.cert) }
    ensures sized { All (λ tables. All (λ table. length table.rows < 2 ^ 32) tables) parts → All (λ tables. All (λ table. length table.rows < 2 ^ 32) tables) result.planning × All (λ table. length table.rows < 2 ^ 32) result.plan × All (λ table. length table.rows < 2 ^ 32) result.cert }
{
    let mut files = parts.into_vec();
    let cert = files.remove(files.len() - 1);
    let plan = files.remove(files.len() - 1);
    CheckParts {
        planning: Seq::from_vec(files),
        plan,
        cert,
    }
}

/// What planning anew reads: the tables of the planning files, file by file, and those of an earlier plan.
#[derive(Drop)]
pub struct EarlierParts {
    /// The tables of each planning file.
    pub planning: Seq<Seq<Table>>,
    /// The tables of the earlier plan.
    pub plan: Seq<Table>,
}

/// Takes the last file off the others: an earlier plan.
pub fn split_earlier(parts: Seq<Seq<Table>>) -> EarlierParts
    requires { 1 ≤ length parts }
    ensures parts { parts ≡ result.planning ++ result.plan ∷ [] }
    ensures plain { All (λ tables. IsTrue (are_plain tables)) parts → All (λ tables. IsTrue (are_plain tables)) result.planning × IsTrue (are_plain result.plan) }
    ensures sized { All (λ tables. All (λ table. length table.rows < 2 ^ 32) tables) parts → All (λ tables. All (λ table. length table.rows < 2 ^ 32) tables) result.planning × All (λ table. length table.rows < 2 ^ 32) result.plan }
{
    let mut files = parts.into_vec();
    let earlier = files.remove(files.len() - 1);
    EarlierParts {
        planning: Seq::from_vec(files),
        plan: earlier,
    }
}
