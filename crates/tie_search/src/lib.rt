//! A shortest path with resources where many are equally short: the least value first, and then which list with that value comes first.
//!
//! Where many lists close with the least value, a search that tells the first of them apart keeps far more labels than one that asks for the
//! value alone. So the value is looked for first, and the last item of a list that closes with it. Of this nothing is promised, and it
//! may drop what it likes. Then a search under the next smaller value shows that no list closes with less, and after that only the
//! lists that end with that item or before it are searched: a list that ends later comes after each of those.
#![tactic(auto)]

mod before;
mod columns;
mod search;
mod value;

pub use before::Before;
pub use columns::best_column_by_value;
pub use search::search_by_value;
pub use value::{Closing, first_closing};
