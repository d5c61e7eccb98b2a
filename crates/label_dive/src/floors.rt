//! Labels that can be dived through.

use label_search::Labels;

/// Labels that say with what their lists close at least, as far as their completion bounds know it.
pub trait Floors: Labels {
    /// What a label's list closes with at least, and each list that goes on from it. A dive goes where it is least; a number that is wrong
    /// makes a search slower, and no answer different.
    fn floor(&self, label: &Self::Label) -> i64
        requires { Self.sound self.now label.now };
}
