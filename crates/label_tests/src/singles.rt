//! A sample of lists of one item, with its columns.

ghost use Rattle.std.specs.Prelude.{◌≡◌};
ghost use Rattle.label_search.specs.Samples.{AnyWay, any_way, single_problem, singles, singles-hide, singles-kept, singles-listed, singles-safe, singles-stepwise, singles-valued, value_closes, way_good};

use cover_core::Columns;
use label_search::Labels;

/// Lists of one item, each worth 1 in the only class.
#[derive(Drop)]
pub(crate) struct Singles {
    pub(crate) count: u8,
}

impl Columns for Singles {
    ghost problem = { λ s. single_problem s.count };

    ghost listed = { λ s. singles-listed s.count };

    fn items(&self) -> u32 {
        self.count as u32
    }

    fn classes(&self) -> u32 {
        1
    }

    fn cap(&self, _class: u32) -> u32 {
        1
    }

    fn worth(&self, _class: u32, list: &[u32]) -> Option<u64> {
        match list {
            [item] => {
                if *item < self.count as u32 {
                    Some(1)
                } else {
                    None
                }
            }
            _ => None,
        }
    }
}

impl Labels for Singles {
    type Label = (u32, i64);

    ghost count = { λ s. s.count };

    ghost labelling = { λ s. singles s.count };

    ghost good = { λ s. way_good };

    ghost value_at = { λ s a. a.1 };

    ghost close_of = { λ s. value_closes };

    ghost last = { λ s a. a.0 };

    ghost sound = { λ s. AnyWay };

    ghost may_close = { λ s. any_way };

    ghost kept = { λ s. singles-kept s.count };

    ghost valued = { λ s. singles-valued s.count };

    ghost stepwise = { λ s. singles-stepwise s.count };

    ghost safe = { λ s. singles-safe s.count };

    ghost hides_none = { λ s. singles-hide s.count };

    fn items(&self) -> u32 {
        self.count as u32
    }

    fn start(&self, item: u32, _limit: i64) -> Option<(u32, i64)> {
        if item < self.count as u32 {
            Some((item, 1000))
        } else {
            None
        }
    }

    fn extend(&self, _label: &(u32, i64), _item: u32, _limit: i64) -> Option<(u32, i64)> {
        None
    }

    fn most_reaching(&self, _item: u32, _limit: i64) -> Option<i64> {
        None
    }

    fn most_following(&self, _before: u32, _item: u32, _limit: i64) -> Option<i64> {
        None
    }

    fn value(&self, label: &(u32, i64)) -> i64 {
        label.1
    }

    fn is_as_good(&self, a: &(u32, i64), b: &(u32, i64)) -> bool {
        a.0 == b.0 && a.1 <= b.1
    }

    fn close(&self, label: &(u32, i64)) -> Option<i64> {
        Some(label.1)
    }
}
