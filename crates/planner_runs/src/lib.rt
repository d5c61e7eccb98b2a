//! Runs of the planner over files and sinks in memory, and changes of the demo network: what the tests of its commands share.
#![tactic(auto)]

mod runs;
mod small_network;

pub use runs::{
    Ended, USAGE, WRITTEN_HEAD, end_in_room, end_into, end_of, file, has_part, has_written, is_so,
    joined, listed, no_files, numbers, one_file, ran, sink, text_of, three_files, written,
};
pub use small_network::{
    ALLOWED, Change, DAY_WRITTEN, FEWER_TABLES, FULL, GROUP, GROUP_COLUMNS, HALF_ALLOWED, IN_TIME,
    LATE, MANY_POOLS, NO_CHANGE, NO_DEADHEADS, NO_DRIVERS, NO_NUMBER, NO_ROUTE, NO_RUN_TIME,
    NO_TRIPS, ONE_FOR_BOTH, ONE_VEHICLE, OPEN_QUOTE, OTHER_DAY, OTHER_TYPE, PAST_END, PLAN_WRITTEN,
    RUN_TIME, SECOND, SHORT, SHORT_ROW, TOGETHER, TOO_LONG, TOO_SOON, TRIPS_WRITTEN, TWO_PLANS,
    UNENDED, UNKNOWN_DEPOT, UNKNOWN_TYPE, UNNAMED, VERSION, changed, demo, end_on, is_plan_written,
    is_refused, plan_written, replaced, text_on, with,
};
