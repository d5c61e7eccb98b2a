//! The commands.

/// A day that is to be made from a seed.
#[derive(Clone, Copy, Debug, PartialEq, Eq)]
pub struct Making {
    /// The number that all draws are made from, below 1,000,000,000.
    pub seed: u32,
    /// How many trips it has, from 1 to 3,000.
    pub trips: u32,
    /// Whether it is planned. Else its tables are written.
    pub run: bool,
}

/// What the planner is to do.
#[derive(Clone, Copy, Debug, PartialEq, Eq)]
pub enum Command {
    /// `trips`: list the trips of a day.
    Trips,
    /// `day`: tell what a day is, and when and how far its trips go.
    Day,
    /// `plan`: cover the trips of a day by vehicle blocks, and the pieces of these by duties of drivers.
    Plan,
    /// `certify`: make the certificate of the plan that `plan` makes by the same words.
    Certify,
    /// `check`: check a plan of a day and a certificate of it against the files of the day.
    Check,
    /// `replan`: keep what of a plan has begun before a moment, and plan the rest of the day anew.
    Replan {
        /// The moment in seconds of the operating day, at most 172,800.
        moment: u32,
    },
    /// `make`: make a day, and plan it where that is said.
    Make(Making),
    /// `week`: check the duties of drivers over up to two weeks.
    Week,
}
