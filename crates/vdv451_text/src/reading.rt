//! Reading a text.

ghost use Rattle.std.specs.Prelude.{◌≡◌, ◌≢◌, ◌≤◌, ◌<◌, ◌^◌, ℕ, List, All, length, IfErr, IfOk, IsTrue};
ghost use Rattle.vdv451_text.specs.Answers.{AnswersFault, AnswersReading, AnswersTables};
ghost use Rattle.vdv451_text.specs.Machine.{reading};
ghost use Rattle.vdv451_text.specs.Faults.{Gives, HasFault};
ghost use Rattle.vdv451_text.specs.Plain.{are_plain};
ghost use Rattle.vdv451_text.specs.declared.fault.TextKind.{TextKind};
ghost use Rattle.vdv451_text.specs.declared.table.Table.{Table as TextTable};

use crate::fault::{TextFault, TextKind};
use crate::machine::read_text;
use crate::table::Table;
use plan_core::Seq;
use std::alloc::Global;

/// The tables that the bytes spell, in their order (VDV 451, in the profile that the crate's first page gives).
///
/// At most `most` bytes are read; `most` is itself at most 4,294,967,294, so that each line has a number. The bytes are gone over
/// once, line by line.
///
/// # Errors
///
/// The first fault: `TooLarge` at line 0 where there are more than `most` bytes; otherwise the first line that no good text
/// begins with, with its kind; otherwise `Unended`, at the number of lines plus 1, where `eof` is missing. In place of any
/// answer `Memory` may come, where memory runs out.
pub fn read_file(alloc: Global, bytes: &[u8], most: u64) -> Result<Seq<Table>, TextFault>
    requires { most ≤ 4294967294 }

    // What is read is spelled so, and what is spelled so is read, unless memory runs out.
    ensures found { IfOk result (λ tables. Gives most bytes.now tables) }
    ensures only { (tables : List TextTable) → Gives most bytes.now tables → AnswersTables result tables }
    ensures plain { IfOk result (λ tables. IsTrue (are_plain tables)) }
    ensures sized { IfOk result (λ tables. All (λ table. length table.rows < 2 ^ 32) tables) }

    // Which fault it is, and that each fault is answered.
    ensures fault { IfErr result (λ e. e.kind ≢ TextKind.Memory → HasFault most bytes.now e.line e.kind) }
    ensures exact { (line : ℕ) (kind : TextKind) → HasFault most bytes.now line kind → AnswersFault result line kind }
{
    read_all(alloc, bytes, most)
}

/// What the machine over lines gives.
fn read_all(alloc: Global, bytes: &[u8], most: u64) -> Result<Seq<Table>, TextFault>
    requires { most ≤ 4294967294 }
    ensures { AnswersReading result (reading most bytes.now) }
{
    if bytes.len() as u64 > most {
        return Err(TextFault {
            line: 0,
            kind: TextKind::TooLarge,
        });
    }
    read_text(alloc, bytes)
}
