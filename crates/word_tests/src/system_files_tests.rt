//! Files that are written here, and read through the adapters.

use plan_core::{Bytes, Failed, Files, Sink};
use std::alloc::Global;
use std::fs;
use std::test::Fail;
use system_files::{DiskFiles, Stream, longest_of};

/// Whether a read of at most four bytes of the file "some.x10" gives these.
fn gives<F: Files>(files: &mut F, at: u64, want: &[u8]) -> bool {
    let mut buffer = [b'-'; 4];
    match files.read(b"some.x10", at, &mut buffer) {
        Ok(count) => buffer.get(..count) == Some(want),
        Err(Failed) => false,
    }
}

/// Whether reads at several places give the digits from there on.
fn gives_digits<F: Files>(files: &mut F) -> bool {
    let rows: [(u64, &[u8]); 5] = [
        (0, b"0123"),
        (4, b"4567"),
        (8, b"89"),
        (10, b""),
        (0, b"0123"),
    ];
    for (at, want) in rows {
        if !gives(files, at, want) {
            return false;
        }
    }
    true
}

#[test]
fn a_file_is_read_from_any_place(rt: HostRuntime) -> Result<(), Fail> {
    fs::write(&rt, "some.x10", b"0123456789")?;
    let mut files = DiskFiles::new(&rt, rt.alloc(), 8)?;
    assert!(rt; gives_digits(&mut files));
    Ok(())
}

/// Whether a read of the initial part of a file gives this answer.
fn answers<F: Files>(files: &mut F, name: &[u8], want: Result<usize, Failed>) -> bool {
    let mut buffer = [0u8; 8];
    files.read(name, 0, &mut buffer) == want
}

/// Whether names fail that are not there, of a folder or no text, and the file "other.x10" is read all the same behind each.
fn fails_and_goes_on<F: Files>(files: &mut F) -> bool {
    let names: [&[u8]; 3] = [b"missing.x10", b".", b"\xff.x10"];
    for name in names {
        if !answers(files, name, Err(Failed)) || !answers(files, b"other.x10", Ok(4)) {
            return false;
        }
    }
    true
}

#[test]
fn what_is_no_file_fails(rt: HostRuntime) -> Result<(), Fail> {
    fs::write(&rt, "other.x10", b"text")?;
    let mut files = DiskFiles::new(&rt, rt.alloc(), 4)?;
    assert!(rt; fails_and_goes_on(&mut files));
    Ok(())
}

#[test]
fn a_stream_takes_what_its_writer_takes(rt: HostRuntime) -> Result<(), Fail> {
    let mut stream = Stream::new(Vec::new(rt.alloc()));
    assert!(rt; stream.write(b"abc") == Ok(3) && stream.write(b"") == Ok(0));
    Ok(())
}

/// Whether the longest of no words has no letter, and that of three its own number.
fn is_measured(alloc: Global) -> Result<bool, Fail> {
    let mut words = Vec::new(alloc);
    let none = longest_of(words.as_slice());
    for word in ["a", "abc", "ab"] {
        words.push(Bytes::from_vec(word.as_bytes().to_vec(alloc)?))?;
    }
    Ok(none == 0 && longest_of(words.as_slice()) == 3)
}

#[test]
fn the_longest_word_is_measured(rt: HostRuntime) -> Result<(), Fail> {
    assert!(rt; is_measured(rt.alloc())?);
    Ok(())
}
