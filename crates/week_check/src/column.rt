//! The columns of the roster's table.

ghost use Rattle.std.specs.Prelude.{◌≡◌};
ghost use Rattle.week_check.specs.Roster.{name_of};

/// A column of X_EINSATZ.
#[derive(Clone, Copy, Debug, PartialEq, Eq)]
pub(crate) enum RosterColumn {
    /// FAHRER_NR, the number of the driver. With BETRIEBSTAG it is the key of a row.
    Driver,
    /// BETRIEBSTAG, the day as YYYYMMDD.
    Day,
    /// BEGINN, the start of the duty in seconds of its day.
    Begin,
    /// ENDE, its end in seconds of its day.
    End,
    /// LENKZEIT, its driving in seconds.
    Driving,
    /// DREI, 1 where it had a pause of at least three hours, else 0.
    Pause,
}

/// The columns in their order.
pub(crate) const COLUMNS: [RosterColumn; 6] = [
    RosterColumn::Driver,
    RosterColumn::Day,
    RosterColumn::Begin,
    RosterColumn::End,
    RosterColumn::Driving,
    RosterColumn::Pause,
];

/// The name of a column.
pub(crate) fn column_name(column: RosterColumn) -> &'static str
    ensures { result.now ≡ name_of column }
{
    match column {
        RosterColumn::Driver => "FAHRER_NR",
        RosterColumn::Day => "BETRIEBSTAG",
        RosterColumn::Begin => "BEGINN",
        RosterColumn::End => "ENDE",
        RosterColumn::Driving => "LENKZEIT",
        RosterColumn::Pause => "DREI",
    }
}
