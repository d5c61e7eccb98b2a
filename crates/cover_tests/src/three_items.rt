//! A small problem, on which the examples of several crates are worked by hand.

ghost use Rattle.cover_tests.specs.Three.{three, three-listed};

use cover_core::Columns;

/// Three items and two classes: item 0 or 1 alone is worth 3 more than the sum of its class and its number, two items are worth 5.
pub(crate) struct Three;

impl Columns for Three {
    ghost problem = { λ _. three };

    fn items(&self) -> u32 {
        3
    }

    fn classes(&self) -> u32 {
        2
    }

    fn cap(&self, class: u32) -> u32 {
        if class == 0 { 2 } else { 1 }
    }

    fn worth(&self, class: u32, list: &[u32]) -> Option<u64> {
        match list {
            [x] if *x < 2 => Some(class as u64 + *x as u64 + 3),
            [x, y] if *x < *y && *y < 3 => Some(5),
            _ => None,
        }
    }

    ghost listed = { λ _. three-listed };
}
