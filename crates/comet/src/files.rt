//! The files that words name: a program and its data.
ghost use Rattle.std.specs.Prelude.{◌≡◌, ◌≤◌, ℕ, List, Some, IfOk, IfErr, option_map};
ghost use Rattle.cbl_io.specs.Held.{Held, IsRead};
ghost use Rattle.checked_tree.specs.Tasks.{program_of};
ghost use Rattle.comet_front.specs.Reading.{HasProgram};
ghost use Rattle.comet.specs.Headline.{IsHeldProgram};
ghost use Rattle.comet.specs.Loading.{IsDataStop, IsLoadStop, IsReadStop, IsTextStop};
ghost use Rattle.comet.specs.Output.{data_of};

use crate::report::{Cause, FileRole};
use cbl_base::limits::MAX_DATA_BYTES;
use cbl_io::{Files, ReadStop};
use checked_tree::Checked;
use comet_front::{TextStop, read_program};
use comet_syntax::MOST_BYTES;
use std::alloc::Global;

/// How many bytes of data are read, and one more.
const MOST_DATA: u64 = MAX_DATA_BYTES as u64;

/// The first `most + 1` bytes of a file that is read for this role.
fn read_file<F: Files>(
    alloc: Global,
    files: &mut F,
    name: &str,
    most: u64,
    role: FileRole,
) -> Result<Vec<u8>, Cause>
    ensures read { IfOk result (λ bytes. IsRead (F.held files.old) name.now most bytes.items) }
    ensures refused { IfErr result (IsReadStop role (F.faults files.old name.now)
        (F.faults files.new name.now)) }
    ensures never_falls { (other : List ℕ) → F.faults files.old other ≤ F.faults files.new other }
    ensures keeps { F.held files.new ≡ F.held files.old }
{
    match files.read(alloc, name, most) {
        Ok(bytes) => Ok(bytes),
        Err(ReadStop::Failed) => Err(Cause::Read(role)),
        Err(ReadStop::NoMemory) => Err(Cause::NoMemory),
    }
}

/// Reads a program's file, and the checked program that its text is.
pub(crate) fn load_program<F: Files>(
    alloc: Global,
    files: &mut F,
    name: &str,
) -> Result<Checked, Cause>
    ensures loaded { IfOk result (λ program. (held : Held) → F.held files.old ≡ Some held →
        IsHeldProgram name.now held (program_of program)) }
    ensures refused { IfErr result (IsLoadStop name.now (F.held files.old)
        (F.faults files.old name.now) (F.faults files.new name.now)) }
    ensures never_falls { (other : List ℕ) → F.faults files.old other ≤ F.faults files.new other }
    ensures keeps { F.held files.new ≡ F.held files.old }
{
    let text = read_file(alloc, files, name, MOST_BYTES as u64, FileRole::Program)?;
    let program = program_in(alloc, text.as_slice())?;
    Ok(program)
}

/// The checked program that a text is, or the cause of a run that is refused for it.
fn program_in(alloc: Global, text: &[u8]) -> Result<Checked, Cause>
    ensures found { IfOk result (λ program. HasProgram text.now (program_of program)) }
    ensures refused { IfErr result (IsTextStop text.now) }
{
    match read_program(alloc, text) {
        Ok(program) => Ok(program),
        Err(TextStop::Fault(place, form)) => Err(Cause::IllFormed(place, form)),
        Err(TextStop::IllTyped(place, code)) => Err(Cause::IllTyped(place, code)),
        Err(TextStop::NoMemory) => Err(Cause::NoMemory),
    }
}

/// The data of a run: none, or what is read of the named file.
pub(crate) fn load_data<F: Files>(
    alloc: Global,
    files: &mut F,
    name: Option<&str>,
) -> Result<Vec<u8>, Cause>
    ensures loaded { IfOk result (λ text. (held : Held) → F.held files.old ≡ Some held →
        data_of (option_map (λ file. file.now) name.entry) held ≡ Some text.items) }
    ensures refused { IfErr result (IsDataStop (option_map (λ file. file.now) name.entry)
        (F.faults files.old) (F.faults files.new)) }
{
    match name {
        None => Ok(Vec::new(alloc)),
        Some(file) => read_file(alloc, files, file, MOST_DATA, FileRole::Data),
    }
}
