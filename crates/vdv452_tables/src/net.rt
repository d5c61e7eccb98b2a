//! The rows of all tables.

use plan_core::Seq;
use vdv452_rows::{
    CalendarRow, DeadRow, GroupDwellRow, LineRow, PointRow, RunRow, SectionRow, StopRow,
    TripDwellRow, TripRow, TypeRow, VersionRow,
};

/// The rows of the tables of a network, each table in the order of its rows. A table that is not
/// looked at has none here.
#[derive(Drop)]
pub struct Net {
    /// BASIS_VER_GUELTIGKEIT.
    pub versions: Seq<VersionRow>,
    /// FIRMENKALENDER.
    pub days: Seq<CalendarRow>,
    /// REC_ORT.
    pub points: Seq<PointRow>,
    /// REC_SEL.
    pub sections: Seq<SectionRow>,
    /// SEL_FZT_FELD.
    pub runs: Seq<RunRow>,
    /// ORT_HZTF.
    pub group_dwells: Seq<GroupDwellRow>,
    /// REC_FRT_HZT.
    pub trip_dwells: Seq<TripDwellRow>,
    /// REC_LID.
    pub lines: Seq<LineRow>,
    /// LID_VERLAUF.
    pub stops: Seq<StopRow>,
    /// REC_FRT.
    pub trips: Seq<TripRow>,
    /// UEB_FZT.
    pub deads: Seq<DeadRow>,
    /// MENGE_FZG_TYP.
    pub types: Seq<TypeRow>,
    /// X_PLAN.
    pub plan: Seq<Seq<u32>>,
    /// X_HOF.
    pub depots: Seq<Seq<u32>>,
    /// X_LINIE_FZG.
    pub line_types: Seq<Seq<u32>>,
    /// X_ABLOESE.
    pub reliefs: Seq<Seq<u32>>,
    /// X_WEG.
    pub ways: Seq<Seq<u32>>,
    /// X_FAHRER.
    pub drivers: Seq<Seq<u32>>,
}
