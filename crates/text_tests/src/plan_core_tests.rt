//! Lists that grow, and files and a sink in memory.

ghost use Rattle.std.specs.Prelude.{◌≡◌, IfOk};

use plan_core::{Bytes, Failed, Files, Gate, MemFile, MemFiles, MemSink, NoGate, Seq, Sink};
use std::alloc::Global;
use std::test::Fail;

fn bytes_of(alloc: Global, text: &[u8]) -> Result<Bytes, Fail> {
    Ok(Bytes::from_vec(text.to_vec(alloc)?))
}

fn numbers(alloc: Global, list: &[u64]) -> Result<Seq<u64>, Fail> {
    Ok(Seq::from_vec(list.to_vec(alloc)?))
}

fn file(alloc: Global, name: &[u8], text: &[u8]) -> Result<MemFile, Fail>
    ensures { IfOk result (λ file. file.faults ≡ 0) }
{
    Ok(MemFile {
        name: bytes_of(alloc, name)?,
        bytes: bytes_of(alloc, text)?,
        faults: 0,
    })
}

/// Whether a list of three numbers has the second one changed.
fn list_changes(alloc: Global) -> Result<bool, Fail> {
    let mut list = Seq::new(alloc);
    for item in [3u64, 5, 8] {
        list.push(item)?;
    }
    if list.len() != 3 {
        return Ok(false);
    }
    list.set(1, 13);
    Ok(list.as_slice() == [3, 13, 8].as_slice())
}

/// Whether a word of no letter gets one, which is then another.
fn word_changes(alloc: Global) -> Result<bool, Fail> {
    let mut word = Bytes::new(alloc);
    let was_empty = word.is_empty();
    word.push(b'a')?;
    if word.len() != 1 {
        return Ok(false);
    }
    word.set(0, b'b');
    Ok(was_empty && word.into_vec().as_slice() == b"b".as_slice())
}

#[test]
fn lists_grow_and_change(rt: HostRuntime) -> Result<(), Fail> {
    assert!(rt; list_changes(rt.alloc())? && word_changes(rt.alloc())?);
    NoGate.enter(7);
    Ok(())
}

/// The files "f", "f" again, which is hidden, and "g", of which the fourth read fails.
fn some_files(alloc: Global) -> Result<MemFiles, Fail> {
    let first = file(alloc, b"f", b"first")?;
    let hidden = file(alloc, b"f", b"hidden")?;
    let empty = file(alloc, b"g", b"")?;
    let list = vec![in alloc; first, hidden, empty]?;
    Ok(MemFiles::new(Seq::from_vec(list), numbers(alloc, [4].as_slice())?))
}

/// Whether a read of at most four bytes gives these, or fails where there are none.
fn gives(files: &mut MemFiles, name: &[u8], at: u64, want: Option<&[u8]>) -> bool {
    let mut buf = [b'.'; 4];
    match files.read(name, at, &mut buf) {
        Ok(count) => want.is_some() && buf.get(..count) == want,
        Err(Failed) => want.is_none(),
    }
}

/// How many reads in turn give what is wanted.
fn given_reads(alloc: Global) -> Result<u32, Fail> {
    let reads: [(&[u8], u64, Option<&[u8]>); 6] = [
        (b"f", 0, Some(b"firs")),
        (b"f", 4, Some(b"t")),
        (b"g", 0, Some(b"")),
        (b"f", 0, None),
        (b"h", 0, None),
        (b"f", 5, Some(b"")),
    ];
    let mut files = some_files(alloc)?;
    let mut count = 0u32;
    for (name, at, want) in reads {
        if gives(&mut files, name, at, want) {
            count = count.saturating_add(1);
        }
    }
    Ok(count)
}

#[test]
fn files_in_memory_are_read_by_place(rt: HostRuntime) -> Result<(), Fail> {
    assert_eq!(rt; given_reads(rt.alloc())?, 6);
    Ok(())
}

/// Whether the second write of four bytes fails, and each other takes up to three, until there are seven.
fn takes_what_fits(alloc: Global) -> Result<bool, Fail> {
    let mut sink = MemSink::new(alloc, 7, 3, numbers(alloc, [2].as_slice())?)?;
    for want in [Ok(3), Err(Failed), Ok(3), Ok(1), Err(Failed)] {
        if sink.write(b"abcd") != want {
            return Ok(false);
        }
    }
    Ok(sink.taken() == b"abcabca".as_slice())
}

#[test]
fn a_sink_in_memory_takes_what_fits(rt: HostRuntime) -> Result<(), Fail> {
    assert!(rt; takes_what_fits(rt.alloc())?);
    Ok(())
}
