//! The words that a program is started with.

use plan_core::{Bytes, Memory};
use std::alloc::Global;
use std::env::{Env, FillError};

/// The word of a number, where 0 is the program's name, and none behind the last one.
fn word_at<R: Env>(rt: &R, alloc: Global, number: usize) -> Result<Option<Bytes>, Memory> {
    let mut room = 256usize;
    for _ in 0..32 {
        let mut buffer = vec![in alloc; 0u8; room]?;
        match rt.arg(number, buffer.as_mut_slice()) {
            Ok(count) => {
                buffer.truncate(count);
                return Ok(Some(Bytes::from_vec(buffer)));
            }
            Err(FillError::NotPresent) => return Ok(None),
            Err(FillError::TooLong) => room = room.saturating_mul(2),
        }
    }
    Err(Memory)
}

/// The words behind the program's name, whatever their length. `Memory` is the only error.
pub fn words_of<R: Env>(rt: &R, alloc: Global) -> Result<Vec<Bytes>, Memory> {
    let mut words = Vec::new(alloc);
    for number in 1..usize::MAX {
        match word_at(rt, alloc, number)? {
            Some(word) => words.push(word)?,
            None => break,
        }
    }
    Ok(words)
}

/// How many bytes the longest word has.
pub fn longest_of(words: &[Bytes]) -> usize {
    words
        .iter()
        .fold(0, |longest, word| longest.max(word.len()))
}
