//! The settings of a plan, read and tested.

ghost use Rattle.std.specs.Prelude.{◌≡◌, ◌≤◌, ◌≢◌, None, Some, All, IfOk, IfErr, OnOk, codes, length, map};
ghost use Rattle.vdv452_tables.specs.LookUps.{extra_of};
ghost use Rattle.vdv452_tables.specs.Ranges.{IsTime};
ghost use Rattle.plan_params.specs.Faults.{first_fault, memory_fault};
ghost use Rattle.plan_params.specs.Limits.{AreSettings, HaveRanges, IsGroup, IsPool};
ghost use Rattle.plan_params.specs.Settings.{admission_of, groups_of, params_of, pools_of, relief_of, settings_in, way_of};

use crate::fault::{ParamFault, ParamKind, refusal_of};
use crate::params::Params;
use crate::row::{TableRow, read_rows};
use crate::rows::ParamRows;
use crate::rows::group::Group;
use crate::rows::pool::Pool;
use crate::rows::settings::Settings;
use crate::rows::way::Way;
use crate::testing::find_fault;
use plan_core::{Memory, Seq};
use std::alloc::Global;
use vdv452_tables::Network;

/// The first row of X_PLAN.
fn read_settings(net: &Network) -> Settings
    ensures value { result ≡ settings_in (extra_of net.now (codes "X_PLAN")) }
    ensures ranges { AreSettings result }
{
    match net.extra("X_PLAN") {
        [row, ..] => Settings::from_row(row.as_slice()),
        [] => Settings::from_row(&[]),
    }
}

fn read_pools(alloc: Global, net: &Network) -> Result<Seq<Pool>, Memory>
    ensures value { IfOk result (λ pools. pools ≡ pools_of net.now) }
    ensures ranges { IfOk result (All IsPool) }
{
    let mut pools: Vec<Pool> = read_rows(alloc, net.extra("X_HOF"))?;
    pools.sort_by_key(|pool| pool.number)?;
    Ok(Seq::from_vec(pools))
}

fn read_groups(alloc: Global, net: &Network) -> Result<Seq<Group>, Memory>
    ensures value { IfOk result (λ groups. groups ≡ groups_of net.now) }
    ensures ranges { IfOk result (All IsGroup) }
{
    let mut groups: Vec<Group> = read_rows(alloc, net.extra("X_FAHRER"))?;
    groups.sort_by_key(|group| group.number)?;
    Ok(Seq::from_vec(groups))
}

fn read_ways(alloc: Global, net: &Network) -> Result<Seq<Way>, Memory>
    ensures value { IfOk result (λ ways. ways ≡ map way_of (extra_of net.now (codes "X_WEG"))) }
    ensures ranges { IfOk result (All (λ way. IsTime way.time)) }
{
    Ok(Seq::from_vec(read_rows(alloc, net.extra("X_WEG"))?))
}

fn read_all(alloc: Global, net: &Network) -> Result<ParamRows, Memory>
    requires pools { length (extra_of net.now (codes "X_HOF")) ≤ 32 }
    requires groups { length (extra_of net.now (codes "X_FAHRER")) ≤ 32 }
    ensures value { IfOk result (λ rows. rows ≡ params_of net.now) }
    ensures ranges { IfOk result HaveRanges }
{
    Ok(ParamRows {
        settings: read_settings(net),
        pools: read_pools(alloc, net)?,
        groups: read_groups(alloc, net)?,
        admissions: Seq::from_vec(read_rows(alloc, net.extra("X_LINIE_FZG"))?),
        reliefs: Seq::from_vec(read_rows(alloc, net.extra("X_ABLOESE"))?),
        ways: read_ways(alloc, net)?,
    })
}

fn read_faultless(alloc: Global, net: &Network) -> Result<Params, Memory>
    requires pools { length (extra_of net.now (codes "X_HOF")) ≤ 32 }
    requires groups { length (extra_of net.now (codes "X_FAHRER")) ≤ 32 }
    ensures value { IfOk result (λ params. params ≡ params_of net.now) }
    ensures ranges { IfOk result HaveRanges }
{
    let rows = read_all(alloc, net)?;
    Params::new(alloc, rows)
}

/// Reads the settings of a plan from X_PLAN, X_HOF, X_LINIE_FZG, X_ABLOESE, X_WEG and X_FAHRER, and
/// tests them against REC_ORT and MENGE_FZG_TYP of a version.
///
/// The first fault is found thus: `NotOne` where X_PLAN has not one row; then the other tables in this
/// order; in a table `TooMany` where X_HOF or X_FAHRER has more than 32 rows, then row by row
/// `UnknownPoint` and `UnknownType`. In a row of X_HOF the point is tested before the type, and in a
/// row of X_WEG the point where the way begins before the other. The lines of X_LINIE_FZG are not
/// tested. `Memory` comes only when out of memory.
pub fn read_params(alloc: Global, net: &Network, version: u32) -> Result<Params, ParamFault>
    ensures value { IfOk result (λ params. params ≡ params_of net.now) }
    ensures ranges { IfOk result HaveRanges }
    ensures faultless { OnOk result (first_fault net.now version ≡ None) }

    // An error is running out of memory or the first fault.
    ensures fault { IfErr result (λ fault. fault.kind ≢ ParamKind.Memory → first_fault net.now version ≡ Some fault) }
    ensures memory { IfErr result (λ fault. fault.kind ≡ ParamKind.Memory → fault ≡ memory_fault) }
{
    if let Some(found) = find_fault(net, version) {
        return Err(refusal_of(alloc, &found));
    }
    match read_faultless(alloc, net) {
        Ok(params) => Ok(params),
        Err(_) => Err(ParamFault::memory(alloc)),
    }
}
