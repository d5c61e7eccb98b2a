//! The streams of the operating system.

ghost use Rattle.std.specs.Prelude.{None};

use plan_core::{Failed, Sink};
use std::io::Write;

/// A stream that is written, as standard output.
#[derive(Drop)]
pub struct Stream<W: Write + Drop> {
    writer: W,
    faults: u64,
}

impl<W: Write + Drop> Stream<W> {
    /// A stream to which nothing was written.
    pub fn new(writer: W) -> Stream<W> {
        Stream { writer, faults: 0 }
    }
}

impl<W: Write + Drop> Sink for Stream<W> {
    ghost taken = { λ _. None };

    ghost faults = { λ stream. stream.faults };

    fn write(&mut self, piece: &[u8]) -> Result<usize, Failed> {
        match self.writer.write(piece) {
            Ok(count) if count > 0 || piece.is_empty() => Ok(count),
            _ => {
                self.faults = self.faults.saturating_add(1);
                Err(Failed)
            }
        }
    }
}
