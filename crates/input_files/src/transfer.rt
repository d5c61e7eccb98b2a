//! Whole files in, a whole text out.

ghost use Rattle.std.specs.Prelude.{◌≡◌, ◌+◌, ◌<◌, ◌≤◌, ◌^◌, ◌++◌, ◌⊎◌, List, ℕ, Option, Some, length, take, replicate, vec_len, IfOk, IfSome, OnOk, OnErr, IsErrOf};
ghost use Rattle.plan_core.specs.Outside.{Rose};
ghost use Rattle.input_files.specs.Taken.{TakesFront};

use plan_core::{Failed, Files, Sink};
use std::alloc::{AllocError, Global};

/// Why a file is not read.
#[derive(Clone, Copy, Debug, PartialEq, Eq)]
pub enum ReadRefusal {
    /// A read failed.
    Fault,
    /// The file has more bytes than it may have.
    TooLarge,
    /// Memory ran out.
    Memory,
}

impl From<AllocError> for ReadRefusal {
    ghost use Rattle.input_files.specs.declared.transfer.ReadRefusal.TheVariants as refusals;

    ghost from_gives = { λ _ e. e ≡ refusals.Memory };

    fn from(_error: AllocError) -> ReadRefusal {
        ReadRefusal::Memory
    }
}

/// How many bytes a read asks for.
pub const PIECE: usize = 65_536;

fn append_front(bytes: &mut Vec<u8>, buffer: &[u8], count: usize) -> Result<(), AllocError>
    requires { count ≤ length buffer.now }
    ensures items { OnOk result (bytes.new.items ≡ bytes.old.items ++ take count buffer.now) }
    ensures len { OnOk result (vec_len bytes.new ≡ vec_len bytes.old + count) }
{
    bytes.extend_from_slice(&buffer[..count])?;
    Ok(())
}

/// Reads a file from place 0 to its end, in pieces of the size of a buffer.
fn read_pieces<F: Files>(
    alloc: Global,
    files: &mut F,
    name: &[u8],
    most: u64,
    buffer: &mut [u8],
) -> Result<Vec<u8>, ReadRefusal>
    requires most { most < 2 ^ 32 }
    requires room { 0 < length buffer.old }
    ensures bytes { IfOk result (λ bytes. IfSome (F.held files.old name.now) (λ held. bytes.items ≡ held)) }
    ensures bound { IfOk result (λ bytes. vec_len bytes ≤ most) }
    ensures large { IsErrOf result ReadRefusal.TooLarge → IfSome (F.held files.old name.now) (λ held. most < length held) }
    ensures fault { IsErrOf result ReadRefusal.Fault → Rose (F.faults files.old name.now) (F.faults files.new name.now) }
    ensures later { (other : List ℕ) → F.faults files.old other ≤ F.faults files.new other }
    ensures same { (other : List ℕ) → F.held files.new other ≡ F.held files.old other }
    ensures ended { (other : List ℕ) → IsErrOf result ReadRefusal.Fault ⊎ (F.faults files.new other ≡ F.faults files.old other) }
{
    let mut bytes = Vec::new(alloc);
    loop {
        let at = bytes.len() as u64;
        let count = match files.read(name, at, buffer) {
            Ok(count) => count,
            Err(_) => return Err(ReadRefusal::Fault),
        };
        if count == 0 {
            return Ok(bytes);
        }
        if count as u64 > most - at {
            return Err(ReadRefusal::TooLarge);
        }
        append_front(&mut bytes, buffer, count)?;
    }
}

/// Reads a file from place 0 to its end, in pieces. One byte above the greatest number ends the reading.
///
/// # Errors
///
/// [`ReadRefusal::Fault`] where a read failed, which is not tried again; [`ReadRefusal::TooLarge`] where the file has more than `most`
/// bytes; [`ReadRefusal::Memory`] where memory runs out.
pub fn read_whole<F: Files>(
    alloc: Global,
    files: &mut F,
    name: &[u8],
    most: u64,
) -> Result<Vec<u8>, ReadRefusal>
    requires { most < 2 ^ 32 }

    // The bytes read are those that the file holds, where that is told.
    ensures bytes { IfOk result (λ bytes. IfSome (F.held files.old name.now) (λ held. bytes.items ≡ held)) }
    ensures bound { IfOk result (λ bytes. vec_len bytes ≤ most) }
    ensures large { IsErrOf result ReadRefusal.TooLarge → IfSome (F.held files.old name.now) (λ held. most < length held) }

    // A fault is answered only where the count of faults under the name rose.
    ensures fault { IsErrOf result ReadRefusal.Fault → Rose (F.faults files.old name.now) (F.faults files.new name.now) }
    ensures later { (other : List ℕ) → F.faults files.old other ≤ F.faults files.new other }
    ensures same { (other : List ℕ) → F.held files.new other ≡ F.held files.old other }

    // Without that answer no count of faults moved.
    ensures ended { (other : List ℕ) → IsErrOf result ReadRefusal.Fault ⊎ (F.faults files.new other ≡ F.faults files.old other) }
{
    let mut buffer = vec![in alloc; 0u8; PIECE]?;
    read_pieces(alloc, files, name, most, buffer.as_mut_slice())
}

/// Writes a whole text. Each write is handed all that is not yet taken.
///
/// # Errors
///
/// [`Failed`] where a write failed, which is not tried again; an initial part of the text was taken.
pub fn write_whole<O: Sink>(out: &mut O, text: &[u8]) -> Result<(), Failed>
    ensures taken { OnOk result (IfSome (O.taken out.old) (λ old. O.taken out.new ≡ Some (old ++ text.now))) }

    // After a fault some initial part of the text was taken, and the count of faults rose.
    ensures front { IfSome (O.taken out.old) (λ old. TakesFront old (O.taken out.new) text.now) }
    ensures fault { OnErr result (Rose (O.faults out.old) (O.faults out.new)) }
    ensures later { O.faults out.old ≤ O.faults out.new }
    ensures quiet { OnOk result (O.faults out.new ≡ O.faults out.old) }
{
    let mut at = 0;
    while at < text.len() {
        let count = match out.write(&text[at..]) {
            Ok(count) => count,
            Err(_) => return Err(Failed),
        };
        at += count;
    }
    Ok(())
}
