//! A label, and the last item of the rest.

/// The label of a list of the rest.
#[derive(Clone, Copy)]
pub struct RestLabel<L> {
    /// The last item of the rest.
    pub item: u32,
    /// The label of the written-out list.
    pub label: L,
}
