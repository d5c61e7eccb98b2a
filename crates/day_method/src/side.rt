//! The sides of a plan.

ghost use Rattle.std.specs.Prelude.{◌≡◌};
ghost use Rattle.day_method.specs.Names.{name_of};

/// The side of a plan that a refusal speaks of.
#[derive(Clone, Copy, Debug, PartialEq, Eq)]
pub enum Side {
    /// The trips of the day and their vehicle blocks.
    Vehicles,
    /// The pieces of the blocks and their driver duties.
    Drivers,
}

impl Side {
    /// The side's name, as it is printed.
    pub fn name(self) -> &'static [u8]
        ensures { result.now ≡ name_of self }
    {
        match self {
            Side::Vehicles => b"vehicles",
            Side::Drivers => b"drivers",
        }
    }
}
