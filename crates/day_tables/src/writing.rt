//! The tables of a day.

ghost use Rattle.std.specs.Prelude.{◌≡◌, ◌<◌, ◌≤◌, ◌^◌, ◌*◌, All, IfOk, IfSome, IsTrue, OnOk, length, slice_index};
ghost use Rattle.vdv451_text.specs.Plain.{are_plain};
ghost use Rattle.number_tables.specs.Numbers.{IsFieldNumber, number_row as row_of, number_rows};
ghost use Rattle.day_model.specs.Building.{IsDayOf};
ghost use Rattle.day_model.specs.Links.{seconds as seconds_of};
ghost use Rattle.day_tables.specs.DayTables.{day_tables_of, metres_at, tag_numbers, tag_table as the_tag_table, trip_numbers, trip_rows as rows_of, trip_table as the_trip_table};

use day_model::Day;
use number_tables::{number_row, number_table};
use place_net::route_length;
use plan_core::{Memory, Sec, Seq};
use std::alloc::Global;
use trip_times::Trip;
use vdv451_text::{Field, Table};
use vdv452_tables::Network;

/// The seconds of a moment that is not before midnight.
fn seconds(moment: Sec) -> Option<u64>
    ensures value { result ≡ seconds_of moment.0 }
    ensures range { IsFieldNumber result }
{
    if moment.0 < 0 {
        None
    } else {
        Some(moment.0 as u64)
    }
}

/// The row of X_TAG.
fn tag_row(alloc: Global, day: &Day) -> Result<Seq<Field>, Memory>
    ensures { IfOk result (λ row. row ≡ row_of (tag_numbers day.now)) }
{
    let kind = day.kind();
    let count = day.trips().len();
    number_row(
        alloc,
        &[
            Some(u64::from(kind.day)),
            Some(u64::from(kind.weekday)),
            Some(u64::from(kind.version)),
            Some(u64::from(kind.kind)),
            Some(count as u64),
        ],
    )
}

/// X_TAG: what the day is.
fn tag_table(alloc: Global, day: &Day) -> Result<Table, Memory>
    ensures { IfOk result (λ table. table ≡ the_tag_table day.now) }
{
    let mut rows = Seq::new(alloc);
    rows.push(tag_row(alloc, day)?)?;
    number_table(
        alloc,
        "X_TAG",
        &[
            "BETRIEBSTAG",
            "WOCHENTAG",
            "BASIS_VERSION",
            "TAGESART_NR",
            "FAHRTEN",
        ],
        rows,
    )
}

/// How many metres the route of the row at a place has, if that is known.
fn metres(net: &Network, version: u32, place: u32) -> Option<u64>
    requires { place < length net.now.trips }
    ensures value { result ≡ metres_at net.now version place }
    ensures range { IsFieldNumber result }
{
    route_length(net, version, &net.trip_rows()[place as usize])
}

/// The row of a trip.
fn trip_row(alloc: Global, trip: &Trip, metres: Option<u64>) -> Result<Seq<Field>, Memory>
    requires fid { trip.now.fid ≤ 10 ^ 18 }
    requires metres { IsFieldNumber metres }
    ensures { IfOk result (λ row. row ≡ row_of (trip_numbers trip.now metres)) }
{
    let begin = seconds(trip.begin);
    let end = seconds(trip.end);
    number_row(
        alloc,
        &[
            Some(trip.fid),
            Some(u64::from(trip.line)),
            Some(u64::from(trip.from.typ)),
            Some(u64::from(trip.from.nr)),
            begin,
            Some(u64::from(trip.to.typ)),
            Some(u64::from(trip.to.nr)),
            end,
            metres,
        ],
    )
}

/// The rows of trips, of which each has the place of its row in REC_FRT.
fn placed_rows(
    alloc: Global,
    net: &Network,
    version: u32,
    places: &[u32],
    trips: &[Trip],
) -> Result<Seq<Seq<Field>>, Memory>
    requires count { length places.now ≡ length trips.now }
    requires within { All (λ place. place < length net.now.trips) places.now }
    requires fids { All (λ trip. trip.fid ≤ 10 ^ 18) trips.now }
    ensures { IfOk result (λ rows. rows ≡ number_rows (rows_of net.now version places.now trips.now)) }
{
    let mut rows = Seq::new(alloc);
    for (number, trip) in trips.iter().enumerate() {
        let length = metres(net, version, places[number]);
        rows.push(trip_row(alloc, trip, length)?)?;
    }
    Ok(rows)
}

/// X_FAHRT: the trips of the day.
fn trip_table(alloc: Global, net: &Network, day: &Day) -> Result<Table, Memory>
    requires { IsDayOf net.now day.now.kind day.now }
    ensures value { IfOk result (λ table. table ≡ the_trip_table net.now day.now) }
    ensures each { OnOk result (length (the_trip_table net.now day.now).rows ≡ length day.now.trips) }
{
    // The numbers of a network's trips are in range: a table's field has room for each.
    let _ = net.trip_rows();
    let rows = placed_rows(alloc, net, day.kind().version, day.rows(), day.trips())?;
    number_table(
        alloc,
        "X_FAHRT",
        &[
            "FRT_FID", "LI_NR", "VON_TYP", "VON_NR", "BEGINN", "NACH_TYP", "NACH_NR", "ENDE",
            "LAENGE",
        ],
        rows,
    )
}

/// The two tables of a day, in this order.
///
/// X_TAG has one row: the day as YYYYMMDD (BETRIEBSTAG), its weekday from 1 for Monday to 7 for Sunday (WOCHENTAG), the version in
/// force (BASIS_VERSION), the day type in it (TAGESART_NR), and how many trips the day has (FAHRTEN).
///
/// X_FAHRT has a row for each trip of the day, by departure and then by number: its number (FRT_FID) and line (LI_NR), its first point
/// by type and number (VON_TYP, VON_NR) and the departure there (BEGINN), its last point (NACH_TYP, NACH_NR) and the arrival there
/// (ENDE), both in seconds of the operating day from 0 to 172,800, and the length of its route in metres (LAENGE), which is empty where
/// a section of the route has none.
///
/// The tables are plain, so they have a spelling after VDV 451.
///
/// # Errors
///
/// `Memory` where memory runs out, and for nothing else.
pub fn tables_of_day(alloc: Global, net: &Network, day: &Day) -> Result<Seq<Table>, Memory>
    requires { IsDayOf net.now day.now.kind day.now }
    ensures tables { IfOk result (λ tables. tables ≡ day_tables_of net.now day.now) }
    ensures plain { IfOk result (λ tables. IsTrue (are_plain tables)) }

    // X_FAHRT has a row for each trip of the day.
    ensures each { OnOk result (length (the_trip_table net.now day.now).rows ≡ length day.now.trips) }
{
    let mut tables = Seq::new(alloc);
    tables.push(tag_table(alloc, day)?)?;
    tables.push(trip_table(alloc, net, day)?)?;
    Ok(tables)
}
