//! What workers find.

use cover_core::Column;
use task_board::Desk;

/// A task that was claimed, and the column that it gathered.
#[derive(Drop)]
pub struct Found {
    /// The task, from 0: class * groups + group, where a group has the lists whose first items are 16 * group to 16 * group + 15.
    pub task: u32,
    /// The first least of the task's class and group, where there is one and its value is within the task's limit.
    pub column: Option<Column>,
}

/// What a worker found, and its desk.
#[derive(Drop)]
pub struct Served {
    pub found: Vec<Found>,
    pub desk: Desk,
}
