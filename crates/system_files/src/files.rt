//! The files of the operating system.

ghost use Rattle.std.specs.Prelude.{◌≡◌, ◌≤◌, None, IfOk, length, drop};
ghost use Rattle.std.specs.Io.{ReadsAtMost};

use input_files::PIECE;
use plan_core::{Failed, Memory};
use std::alloc::Global;
use std::io::{Read, Seek, SeekFrom};
use std::rt::Files as Disk;
use std::{fs, io};

/// The files of the operating system. A name is the bytes of a path in UTF-8; another one is a fault, as is a folder.
///
/// The file that was read last stays open. All room is taken at once, so that no read asks for memory.
#[derive(Drop)]
pub struct DiskFiles<'r, R: Disk> {
    rt: &'r R,
    opened: Option<R::File>,
    name: Vec<u8>,
    piece: Vec<u8>,
    faults: u64,
}

/// Opens a file by a name in UTF-8.
fn open_named<R: Disk>(rt: &R, name: &[u8]) -> io::Result<R::File> {
    match str::from_utf8(name) {
        Ok(path) => fs::open(rt, path),
        Err(_) => Err(io::Error::from(io::ErrorKind::InvalidInput)),
    }
}

/// Reads at a place of an opened file.
fn read_opened<F: Read + Seek>(file: &mut F, at: u64, buf: &mut [u8]) -> io::Result<usize>
    ensures { ReadsAtMost result buf.new }
{
    file.seek(SeekFrom::Start(at))?;
    file.read(buf)
}

/// Reads at most so many bytes into the initial part of a piece.
fn read_front<F: Read + Seek>(
    file: &mut F,
    at: u64,
    piece: &mut Vec<u8>,
    most: usize,
) -> io::Result<usize>
    requires { most ≤ length piece.old.items }
    ensures bound { IfOk result (λ count. count ≤ most) }
    ensures len { length piece.new.items ≡ length piece.old.items }
{
    read_opened(file, at, &mut piece.as_mut_slice()[..most])
}

/// Copies so many bytes into the initial part of a buffer, and leaves what is behind them.
pub fn copy_front(piece: &[u8], count: usize, buf: &mut [u8])
    requires read { count ≤ length piece.now }
    requires room { count ≤ length buf.old }
    ensures len { length buf.new ≡ length buf.old }
    ensures kept { drop count buf.new ≡ drop count buf.old }
{
    buf[..count].copy_from_slice(&piece[..count]);
}

impl<'r, R: Disk> DiskFiles<'r, R> {
    /// Files of which none was read, with room for names of at most so many bytes. `Memory` is the only error; no read takes memory.
    pub fn new(rt: &'r R, alloc: Global, longest: usize) -> Result<DiskFiles<'r, R>, Memory> {
        Ok(DiskFiles {
            rt,
            opened: None,
            name: Vec::with_capacity(alloc, longest)?,
            piece: vec![in alloc; 0u8; PIECE]?,
            faults: 0,
        })
    }

    /// Keeps a file open under its name, where there is room for that.
    fn keep_open(&mut self, name: &[u8], file: R::File)
        ensures piece { self.new.piece ≡ self.old.piece }
        ensures faults { self.new.faults ≡ self.old.faults }
    {
        self.name.clear();
        self.opened = None;
        if name.len() <= self.name.capacity() {
            self.name.extend_from_slice(name).unwrap();
            self.opened = Some(file);
        }
    }

    /// Reads at most so many bytes at a place of the file of a name into the piece, and keeps the file open for the reads that follow.
    fn read_named(&mut self, name: &[u8], at: u64, most: usize) -> io::Result<usize>
        requires { most ≤ length self.old.piece.items }
        ensures bound { IfOk result (λ count. count ≤ most) }
        ensures piece { length self.new.piece.items ≡ length self.old.piece.items }
        ensures faults { self.new.faults ≡ self.old.faults }
    {
        match &mut self.opened {
            Some(file) if at > 0 && self.name.as_slice() == name => {
                read_front(file, at, &mut self.piece, most)
            }
            _ => {
                let mut file = open_named(self.rt, name)?;
                let count = read_front(&mut file, at, &mut self.piece, most)?;
                self.keep_open(name, file);
                Ok(count)
            }
        }
    }
}

impl<'r, R: Disk> plan_core::Files for DiskFiles<'r, R> {
    ghost held = { λ _ _. None };

    ghost faults = { λ files _. files.faults };

    fn read(&mut self, name: &[u8], at: u64, buf: &mut [u8]) -> Result<usize, Failed> {
        let most = buf.len().min(self.piece.len());
        match self.read_named(name, at, most) {
            Ok(count) => {
                copy_front(self.piece.as_slice(), count, buf);
                Ok(count)
            }
            Err(_) => {
                self.faults = self.faults.saturating_add(1);
                Err(Failed)
            }
        }
    }
}
