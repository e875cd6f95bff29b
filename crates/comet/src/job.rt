//! What is run: a program, its fuel and its data.
ghost use Rattle.std.specs.Prelude.{◌≡◌, ◌≢◌, ℕ, true, Some, None, IfOk, IfErr, option_map};
ghost use Rattle.cbl_io.specs.Held.{Held};
ghost use Rattle.checked_tree.specs.Tasks.{program_of};
ghost use Rattle.comet_words.specs.Asked.{asked};
ghost use Rattle.comet_words.specs.View.{asked_for, texts};
ghost use Rattle.comet.specs.Asking.{program_named};
ghost use Rattle.comet.specs.Loading.{IsFilesStop, IsFrontStop, IsJob, IsLoaded};

use crate::files::{load_data, load_program};
use crate::report::Cause;
use cbl_base::Place;
use cbl_io::Files;
use checked_tree::Checked;
use comet_syntax::FormCause;
use comet_words::{Source, Words, read_words};
use std::alloc::Global;

/// A program that is to run, the seed of its draws, the fuel that it may spend, and the data that it may read.
#[derive(Drop)]
pub struct Job {
    pub(crate) program: Checked,
    pub(crate) seed: u64,
    pub(crate) fuel: u64,
    pub(crate) data: Vec<u8>,
}

impl Job {
    /// Whether the job waits for nobody. Each does, since no loop of threads is built.
    pub fn still(&self) -> bool
        ensures { result ≡ true }
    {
        true
    }
}

/// What the words ask for: the checked program of the file that they name, with the seed, the fuel, and the data of the
/// other file. `Words` exactly where they aren't in form; `IllFormed` and `IllTyped` exactly where the program is refused, or the
/// words ask for what isn't built; `Read` only where reading a named file failed, and the data's only where the program isn't
/// refused; `NoMemory` where there was none. The number of workers has no effect.
pub fn front<F: Files>(alloc: Global, words: &[String], files: &mut F) -> Result<Job, Cause>
    ensures job { IfOk result (λ job. (held : Held) → F.held files.old ≡ Some held →
        IsJob (texts words.now) held (program_of job.program) job.seed job.fuel job.data.items) }
    ensures in_form { IfOk result (λ _. asked (texts words.now) ≢ None) }
    ensures refused { IfErr result (IsFrontStop (texts words.now) (F.held files.old)
        (F.faults files.old) (F.faults files.new)) }
{
    let Some(words) = read_words(words) else {
        return Err(Cause::Words);
    };
    let Some(name) = program_name(words) else {
        let place = Place { line: 1, col: 1 };
        return Err(Cause::IllFormed(place, FormCause::NotBuilt));
    };
    load(alloc, files, name, words.seed, words.fuel, words.data)
}

/// The program's file, where nothing is asked for that isn't built.
fn program_name(words: Words<'_>) -> Option<&str>
    ensures { option_map (λ name. name.now) result ≡ program_named (asked_for words.entry) }
{
    if words.replay.is_some() || words.journal {
        return None;
    }
    match words.source {
        Source::Program(name) => Some(name),
        Source::Generate(_) => None,
    }
}

/// The program of a file, with this seed, this fuel and the data of a file.
fn load<F: Files>(
    alloc: Global,
    files: &mut F,
    name: &str,
    seed: u64,
    fuel: u64,
    data_file: Option<&str>,
) -> Result<Job, Cause>
    ensures loaded { IfOk result (λ job. (held : Held) → F.held files.old ≡ Some held →
        IsLoaded name.now (option_map (λ file. file.now) data_file.entry) held (program_of job.program) job.data.items) }
    ensures seed { IfOk result (λ job. job.seed ≡ seed) }
    ensures fuel { IfOk result (λ job. job.fuel ≡ fuel) }
    ensures refused { IfErr result (IsFilesStop name.now
        (option_map (λ file. file.now) data_file.entry) (F.held files.old) (F.faults files.old)
        (F.faults files.new)) }
{
    let program = load_program(alloc, files, name)?;
    let data = load_data(alloc, files, data_file)?;
    Ok(Job {
        program,
        seed,
        fuel,
        data,
    })
}
