//! What is found of lists that are offered as a plan.

use cover_core::Plan;

/// What is found of lists that are offered as a plan: the first cause that they are none, by the kinds in this order and then by numbers.
#[derive(Drop)]
pub enum PlanVerdict {
    /// They are a plan, with these worths.
    Lawful(Plan),
    /// An item does not stand in exactly one list, once.
    Times {
        /// The first such item.
        item: u32,
        /// How often it stands in the lists.
        count: u32,
    },
    /// A list is no column of its class.
    Unlawful {
        /// The place of the first such list.
        place: u32,
    },
    /// A class has more lists than its cap.
    Over {
        /// The first such class.
        class: u32,
        /// How many lists it has.
        used: u32,
    },
}
