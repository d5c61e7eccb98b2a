//! Files, read and spelled out one after another.

ghost use Rattle.std.specs.Prelude.{◌≡◌, ◌≤◌, ◌<◌, ◌^◌, ◌⊎◌, ◌++◌, ◌∷◌, [], ℕ, List, All, IsTrue, IfOk, IfErr, IfSome, IsErrOf, OnOk, MatchResult, length, take};
ghost use Rattle.vdv451_text.specs.Faults.{Gives, HasFault};
ghost use Rattle.vdv451_text.specs.Plain.{are_plain};
ghost use Rattle.vdv451_text.specs.declared.fault.TextKind.{TextKind};
ghost use Rattle.vdv451_text.specs.declared.table.Table.{Table as TextTable};
ghost use Rattle.plan_core.specs.Outside.{Rose};
ghost use Rattle.input_files.specs.Inputs.{HasTextFault, IsFileCause, IsReadFault, IsUnread, SpellTables, held_under, read_fault, refused_text, text_fault};
ghost use Rattle.input_files.specs.Stages.{IsStage};

use crate::fault::FileFault;
use crate::stage::Stage;
use crate::transfer::{ReadRefusal, read_whole};
use plan_core::{Bytes, Files, Seq};
use std::alloc::Global;
use vdv451_text::{Table, TextFault, TextKind, read_file};

/// One file: how many bytes it has, and its tables.
#[derive(Drop)]
struct FileTables {
    length: u64,
    tables: Seq<Table>,
}

/// The answer for a file that is not read.
fn fault_of_read(file: u32, refusal: ReadRefusal) -> FileFault
    ensures { result ≡ read_fault file refusal }
{
    match refusal {
        ReadRefusal::Fault => FileFault::Read { file },
        ReadRefusal::TooLarge => FileFault::Text {
            file,
            fault: TextFault {
                line: 0,
                kind: TextKind::TooLarge,
            },
        },
        ReadRefusal::Memory => FileFault::Memory,
    }
}

/// The answer for a file whose text is refused.
fn fault_of_text(file: u32, fault: TextFault) -> FileFault
    ensures { result ≡ text_fault file fault.line fault.kind }
{
    if fault.kind == TextKind::Memory {
        FileFault::Memory
    } else {
        FileFault::Text { file, fault }
    }
}

/// Reads a file of at most so many bytes to its end, and spells it out.
fn read_spelled<F: Files>(
    alloc: Global,
    files: &mut F,
    name: &[u8],
    most: u64,
    number: u32,
) -> Result<FileTables, FileFault>
    requires { most ≤ 268435456 }
    ensures found { IfOk result (λ file. IfSome (F.held files.old name.now) (λ bytes. (file.length ≡ length bytes) × Gives most bytes file.tables)) }
    ensures bound { IfOk result (λ file. file.length ≤ most) }
    ensures plain { IfOk result (λ file. IsTrue (are_plain file.tables)) }
    ensures sized { IfOk result (λ file. All (λ table. length table.rows < 2 ^ 32) file.tables) }
    ensures only { (tables : List TextTable) → IfSome (F.held files.old name.now) (λ bytes. Gives most bytes tables → MatchResult result (λ file. file.tables ≡ tables) IsUnread) }
    ensures cause { IfErr result (IsFileCause (λ file line kind. (file ≡ number) × IfSome (F.held files.old name.now) (λ bytes. HasFault most bytes line kind)) (λ file. (file ≡ number) × Rose (F.faults files.old name.now) (F.faults files.new name.now))) }
    ensures exact { (line : ℕ) (kind : TextKind) → IfSome (F.held files.old name.now) (λ bytes. HasFault most bytes line kind → MatchResult result (λ _. ⊥) (λ fault. IsUnread fault ⊎ (fault ≡ refused_text number line kind))) }
    ensures later { (other : List ℕ) → F.faults files.old other ≤ F.faults files.new other }
    ensures still { ((file : ℕ) → ¬ IsErrOf result (FileFault.Read file)) → (other : List ℕ) → F.faults files.new other ≡ F.faults files.old other }
    ensures same { (other : List ℕ) → F.held files.new other ≡ F.held files.old other }
{
    let bytes = match read_whole(alloc, files, name, most) {
        Ok(bytes) => bytes,
        Err(refusal) => return Err(fault_of_read(number, refusal)),
    };
    match read_file(alloc, bytes.as_slice(), most) {
        Ok(tables) => Ok(FileTables {
            length: bytes.len() as u64,
            tables,
        }),
        Err(fault) => Err(fault_of_text(number, fault)),
    }
}

/// Puts the tables of a file behind those of the files before it.
fn add_part(parts: &mut Seq<Seq<Table>>, tables: Seq<Table>) -> Result<(), FileFault>
    ensures ok { OnOk result (parts.new ≡ parts.old ++ tables ∷ []) }
    ensures err { IfErr result (λ fault. fault ≡ FileFault.Memory) }
{
    parts.push(tables)?;
    Ok(())
}

/// Reads files in the order of their names, each to its end, and spells out the tables of each; `stage` says what the first of them is.
/// The first file that is not read, or whose text has a fault, refuses all.
///
/// # Errors
///
/// [`FileFault::Text`] with the first fault of the first file whose text has one, [`FileFault::Read`] where a read of a file failed, each
/// with the number of that file, counted from 1; the texts of the files before it are right. [`FileFault::Memory`] where memory runs out.
pub fn read_files<F: Files>(
    alloc: Global,
    files: &mut F,
    names: &[Bytes],
    stage: Stage,
) -> Result<Seq<Seq<Table>>, FileFault>
    requires few { length names.now ≤ 66 }
    requires stage { IsStage stage }

    // What is read is what the files spell, and what they spell is read, unless memory runs out or a read fails.
    ensures found { IfOk result (λ parts. IfSome (held_under (F.held files.old) names.now) (λ contents. SpellTables stage contents parts)) }
    ensures only { (parts : List (List TextTable)) → IfSome (held_under (F.held files.old) names.now) (λ contents. SpellTables stage contents parts → MatchResult result (λ found. found ≡ parts) IsUnread) }
    ensures plain { IfOk result (λ parts. All (λ tables. IsTrue (are_plain tables)) parts) }
    ensures sized { IfOk result (λ parts. All (λ tables. All (λ table. length table.rows < 2 ^ 32) tables) parts) }
    ensures number { IfOk result (λ parts. length parts ≡ length names.now) }

    // A refusal has its cause in the files up to the one that it names, and a fault of text is answered.
    ensures cause { IfErr result (IsFileCause (λ file line kind. IfSome (held_under (F.held files.old) (take file names.now)) (λ contents. HasTextFault stage 1 contents file line kind)) (IsReadFault stage (F.held files.old) names.now (F.faults files.old) (F.faults files.new))) }
    ensures exact { (file line : ℕ) (kind : TextKind) → IfSome (held_under (F.held files.old) (take file names.now)) (λ contents. HasTextFault stage 1 contents file line kind → MatchResult result (λ _. ⊥) (λ fault. IsUnread fault ⊎ (fault ≡ refused_text file line kind))) }

    // Only a read fault moves a count, and no read changes what is held.
    ensures later { (other : List ℕ) → F.faults files.old other ≤ F.faults files.new other }
    ensures still { ((file : ℕ) → ¬ IsErrOf result (FileFault.Read file)) → (other : List ℕ) → F.faults files.new other ≡ F.faults files.old other }
    ensures same { (other : List ℕ) → F.held files.new other ≡ F.held files.old other }
{
    let mut parts = Seq::new(alloc);
    let mut next = stage;
    for (place, name) in names.iter().enumerate() {
        match read_spelled(alloc, files, name.as_slice(), next.room(), place as u32 + 1) {
            Ok(FileTables { length, tables }) => {
                next = next.after(length);
                add_part(&mut parts, tables)?;
            }
            Err(fault) => return Err(fault),
        }
    }
    Ok(parts)
}
