//! A gate that holds the first task.

use plan_core::Gate;
use std::sync::atomic::{AtomicBool, AtomicU32, Ordering};
use std::thread;

/// A gate that holds the worker with task 0 until so many other tasks have entered, and gives up after so many turns of its loop.
#[derive(Drop)]
pub(crate) struct FirstHeld {
    others: u32,
    turns: u32,
    entered: AtomicU32,
    gave_up: AtomicBool,
}

impl FirstHeld {
    pub(crate) fn new(others: u32, turns: u32) -> FirstHeld {
        FirstHeld {
            others,
            turns,
            entered: AtomicU32::new(0),
            gave_up: AtomicBool::new(false),
        }
    }

    /// Whether task 0 went on before the others had entered.
    pub(crate) fn gave_up(&self) -> bool {
        self.gave_up.load(Ordering::SeqCst)
    }
}

impl Gate for FirstHeld {
    fn enter(&self, task: u32) {
        if task != 0 {
            self.entered.fetch_add(1, Ordering::SeqCst);
            return;
        }
        for _turn in 0..self.turns {
            if self.entered.load(Ordering::SeqCst) >= self.others {
                return;
            }
            thread::yield_now();
        }
        self.gave_up.store(true, Ordering::SeqCst);
    }
}
