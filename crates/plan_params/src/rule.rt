//! What is tested in the tables.

ghost use Rattle.std.specs.Prelude.{◌≡◌, map};
ghost use Rattle.plan_params.specs.Rules.{all_rules, rule_of};

/// The columns of a row that hold a point or a type of vehicles, by their places from 0.
#[derive(Clone, Copy)]
pub(crate) enum Reference {
    /// The type and the number of a point.
    PointAt(usize, usize),
    /// A type of vehicles.
    TypeAt(usize),
}

/// What is tested in a table: whether it may have only 32 rows, and the references of each row in
/// their order.
#[derive(Clone, Copy)]
pub(crate) struct TableRule<'a> {
    pub name: &'a str,
    pub is_limited: bool,
    pub references: &'a [Reference],
}

/// The tables in the order of their faults.
pub(crate) fn rules() -> [TableRule<'static>; 5]
    ensures { map rule_of result ≡ all_rules }
{
    [
        TableRule {
            name: "X_HOF",
            is_limited: true,
            references: &[Reference::PointAt(1, 2), Reference::TypeAt(3)],
        },
        TableRule {
            name: "X_LINIE_FZG",
            is_limited: false,
            references: &[Reference::TypeAt(1)],
        },
        TableRule {
            name: "X_ABLOESE",
            is_limited: false,
            references: &[Reference::PointAt(0, 1)],
        },
        TableRule {
            name: "X_WEG",
            is_limited: false,
            references: &[Reference::PointAt(0, 1), Reference::PointAt(2, 3)],
        },
        TableRule {
            name: "X_FAHRER",
            is_limited: true,
            references: &[Reference::PointAt(1, 2)],
        },
    ]
}
