//! The whole program, over the world outside.

ghost use Rattle.std.specs.Prelude.{◌≡◌, ◌≢◌, ◌≤◌, ◌⊎◌, ℕ, List, length, IsSome};
ghost use Rattle.certificate_checker.specs.declared.checked.Checked.{Checked as a_check};
ghost use Rattle.certificate_checker.specs.Checks.{IsRefusal};
ghost use Rattle.std.specs.List.{All};
ghost use Rattle.cp_outside.specs.Reads.{OnWhole};
ghost use Rattle.cp_outside.specs.declared.files.ReadEnd.TheVariants.{Failed};
ghost use Rattle.cpfactor_lines.specs.Commands.{HasRanges, IsUsageAt};
ghost use Rattle.cpfactor_lines.specs.Requests.{texts, request_of};
ghost use Rattle.cpfactor_lines.specs.Sinks.{sink_shown};
ghost use Rattle.cpfactor_top.specs.declared.ended.Ended.{Ended as an_ending};
ghost use Rattle.cpfactor_top.specs.declared.ended.Cause.TheVariants.{Usage as usage, Proof, ReadFault, WriteFault};
ghost use Rattle.cpfactor_top.specs.Causes.{EndsWith, HasStatus, IsUndisturbed, ending};
ghost use Rattle.cpfactor_top.specs.Outcomes.{EndsBy};
ghost use Rattle.cpfactor_top.specs.Files.{FileShown, file_shown, matrix_file, IsRead, IsFileAnswer};
ghost use Rattle.cpfactor_top.specs.Answers.{files_of, file_of, answers_of_matrix, answers_of, IsBytesAnswer, IsAnswer, IsRequestDue, IsCheckUsageAt, IsCheckAnswer, IsCheckDue, IsUnnamed, YieldsTo, YieldsToReading, IsEasyRequest, FactorsAtOnce};

use crate::checking::check_bytes;
use crate::crew::{crew_of, sample_by, search_by, solve_by};
use crate::ended::{Cause, Ended};
use crate::refusal::{refuse, want_memory};
use cone_pool::Gate;
use copositive_minimum::AnyGate;
use cp_outside::{Files, ReadEnd, Sink};
use cpfactor_lines::{Command, Usage, read_words};
use search_core::Searcher;
use serial_search::SerialSearcher;
use std::alloc::Global;
use std::sync::Wait;
use std::thread::Threads;
use unimodular_cone::Mode;

/// The most bytes that a matrix file may have.
const MATRIX_LIMIT: usize = 1_048_576;

/// Does what the words of the command line ask for: reads the files, and writes the text of the answer to the sink, each
/// line with its line feed at once.
///
/// It ends with `Usage` where the words are no command line, at the position of the first fault; with `TooLong` where the
/// file has more than 1,048,576 bytes; with `ReadFault` only where reading that file failed; and else as `solve_alone`,
/// `minimum_alone` or `check_run` does. `sample` ends as `solve` does with the matrix of its numbers, under the usual limits.
/// By one worker it always returns; several search in threads of `rt`, each of which passes the gate at the beginning of each
/// of its turns, and answer the same.
pub fn run<R: Threads + Wait + Sync, F: Files, K: Sink>(
    rt: &R,
    alloc: Global,
    words: &[String],
    files: &mut F,
    sink: &mut K,
    gate: &(dyn Gate + Sync),
) -> Ended
    ensures status { HasStatus result }
    // The ending is that of an answer, whose text is written; or the sink failed or memory was wanting, and a front of that
    // text is, or of the line `refused memory`.
    ensures ended { EndsBy (IsAnswer (texts words.now) (file_shown F.Files files.old files.new))
        (sink_shown K.Sink sink.old sink.new) result }
    // Faulty words are refused at the position of their first fault.
    ensures usage { (position : ℕ) → IsUsageAt (texts words.now) position → YieldsTo (ending (usage position)) result }
    // Each ending comes where it is due.
    ensures due { (e : an_ending) → IsRequestDue (texts words.now) (F.told files.old) e → YieldsToReading e result }
    // A matrix in the first cone is factored without a step, where nothing is owed.
    ensures first_cone { IsEasyRequest (texts words.now) (F.told files.old)
        → EndsWith ReadFault result ⊎ FactorsAtOnce result }
    // What the files tell stays, and so do the counts of the files that the words don't name.
    ensures told_stays { (name : List ℕ) → F.told files.new name ≡ F.told files.old name }
    ensures others_stay { (name : List ℕ) → IsUnnamed (texts words.now) name
        → F.faults files.new name ≡ F.faults files.old name }
    // No count rises without a fault.
    ensures quiet_files { IsUndisturbed result → (name : List ℕ) → F.faults files.new name ≡ F.faults files.old name }
    ensures quiet_sink { result.cause ≢ WriteFault → K.faults sink.new ≡ K.faults sink.old }
{
    answer(rt, alloc, words, files, sink, gate)
}

/// The command `check` whole: reads the matrix A of a file and the verdict of a second one, and writes `accepted`, or the first
/// test that fails.
///
/// It ends with `Usage` where the words are no command line, at the position of the first fault, and at position 1 where they
/// ask for another command; with `TooLong` where the matrix file has more than 1,048,576 bytes, or the proof file more than
/// 67,108,864; with `MatrixFault` or `ProofFault` where the text has that first fault; with `ReadFault` only where reading
/// that file failed; with `Proof` where that test is the first to fail, or that operation of a test the first that doesn't fit;
/// and with `Fine` where no test fails. What comes first in reading the matrix, reading the proof and testing is told. It takes
/// no threads and always returns.
pub fn check_run<F: Files, K: Sink>(
    alloc: Global,
    words: &[String],
    files: &mut F,
    sink: &mut K,
) -> Ended
    ensures status { HasStatus result }
    // The ending is that of an answer, whose text is written; or the sink failed or memory was wanting, and a front of that
    // text is, or of the line `refused memory`.
    ensures ended { EndsBy (IsCheckAnswer (texts words.now) (file_shown F.Files files.old files.new))
        (sink_shown K.Sink sink.old sink.new) result }
    // Words that are faulty, or those of another command, are refused.
    ensures usage { (position : ℕ) → IsCheckUsageAt (texts words.now) position
        → YieldsTo (ending (usage position)) result }
    // Each ending comes where it is due.
    ensures due { (e : an_ending) → IsCheckDue (texts words.now) (F.told files.old) e → YieldsToReading e result }
    // What the checker is told to refuse is neither acceptance nor want of memory.
    ensures refusal { (checked : a_check) → result.cause ≡ Proof checked → IsRefusal checked }
    // What the files tell stays, and so do the counts of the files that the words don't name.
    ensures told_stays { (name : List ℕ) → F.told files.new name ≡ F.told files.old name }
    ensures others_stay { (name : List ℕ) → IsUnnamed (texts words.now) name
        → F.faults files.new name ≡ F.faults files.old name }
    // No count rises without a fault.
    ensures quiet_files { IsUndisturbed result → (name : List ℕ) → F.faults files.new name ≡ F.faults files.old name }
    ensures quiet_sink { result.cause ≢ WriteFault → K.faults sink.new ≡ K.faults sink.old }
{
    check_words(alloc, words, files, sink)
}

/// Writes the answer of `check` for the words of a command line.
fn check_words<F: Files, K: Sink>(
    alloc: Global,
    words: &[String],
    files: &mut F,
    sink: &mut K,
) -> Ended
    ensures ended { EndsBy (IsCheckAnswer (texts words.now) (file_shown F.Files files.old files.new))
        (sink_shown K.Sink sink.old sink.new) result }
    ensures told_stays { (name : List ℕ) → F.told files.new name ≡ F.told files.old name }
    ensures others_stay { (name : List ℕ) → IsUnnamed (texts words.now) name
        → F.faults files.new name ≡ F.faults files.old name }
    ensures quiet { IsUndisturbed result → (name : List ℕ) → F.faults files.new name ≡ F.faults files.old name }
{
    match read_words(words) {
        Ok(Command::Check { file, proof }) => answer_command(
            alloc,
            None::<SerialSearcher>,
            Command::Check { file, proof },
            files,
            sink,
        ),
        Ok(Command::Solve { .. }) => refuse(alloc, sink, Cause::Usage { position: 1 }),
        Ok(Command::Minimum { .. }) => refuse(alloc, sink, Cause::Usage { position: 1 }),
        Ok(Command::Copositive { .. }) => refuse(alloc, sink, Cause::Usage { position: 1 }),
        Ok(Command::Sample { .. }) => refuse(alloc, sink, Cause::Usage { position: 1 }),
        Err(Usage { position }) => refuse(alloc, sink, Cause::Usage { position }),
    }
}

/// Writes the answer for the words of a command line.
fn answer<R: Threads + Wait + Sync, F: Files, K: Sink>(
    rt: &R,
    alloc: Global,
    words: &[String],
    files: &mut F,
    sink: &mut K,
    gate: &(dyn Gate + Sync),
) -> Ended
    ensures ended { EndsBy (IsAnswer (texts words.now) (file_shown F.Files files.old files.new))
        (sink_shown K.Sink sink.old sink.new) result }
    ensures told_stays { (name : List ℕ) → F.told files.new name ≡ F.told files.old name }
    ensures others_stay { (name : List ℕ) → IsUnnamed (texts words.now) name
        → F.faults files.new name ≡ F.faults files.old name }
    ensures quiet { IsUndisturbed result → (name : List ℕ) → F.faults files.new name ≡ F.faults files.old name }
{
    match read_words(words) {
        Ok(Command::Check { .. }) => check_run(alloc, words, files, sink),
        Ok(command) => answer_command(
            alloc,
            crew_of(rt, alloc, command.workers(), &AnyGate::of(gate)),
            command,
            files,
            sink,
        ),
        Err(Usage { position }) => refuse(alloc, sink, Cause::Usage { position }),
    }
}

/// Does what a command asks for.
fn answer_command<S: Searcher + Drop, F: Files, K: Sink>(
    alloc: Global,
    crew: Option<S>,
    command: Command<'_>,
    files: &mut F,
    sink: &mut K,
) -> Ended
    requires { HasRanges (request_of command) }
    ensures ended { EndsBy (answers_of (request_of command.entry) (file_shown F.Files files.old files.new))
        (sink_shown K.Sink sink.old sink.new) result }
    ensures told_stays { (name : List ℕ) → F.told files.new name ≡ F.told files.old name }
    ensures others_stay { (name : List ℕ) → All (λ file. name ≢ file) (files_of (request_of command.entry))
        → F.faults files.new name ≡ F.faults files.old name }
    ensures quiet { IsUndisturbed result → (name : List ℕ) → F.faults files.new name ≡ F.faults files.old name }
{
    match command {
        Command::Solve { file, .. } => answer_file(alloc, crew, command, file, files, sink),
        Command::Check { file, .. } => answer_file(alloc, crew, command, file, files, sink),
        Command::Minimum { file, .. } => answer_file(alloc, crew, command, file, files, sink),
        Command::Copositive { file, .. } => answer_file(alloc, crew, command, file, files, sink),
        Command::Sample { n, k, first, .. } => sample_by(alloc, crew, n, k, first, sink),
    }
}

/// Reads the matrix file of this name, which a command names, and does what the command asks for.
fn answer_file<S: Searcher + Drop, F: Files, K: Sink>(
    alloc: Global,
    crew: Option<S>,
    command: Command<'_>,
    file: &str,
    files: &mut F,
    sink: &mut K,
) -> Ended
    requires ranges { HasRanges (request_of command) }
    requires named { file_of (request_of command) ≡ Some file.now }
    ensures ended { EndsBy (answers_of (request_of command.entry) (file_shown F.Files files.old files.new))
        (sink_shown K.Sink sink.old sink.new) result }
    ensures told_stays { (name : List ℕ) → F.told files.new name ≡ F.told files.old name }
    ensures others_stay { (name : List ℕ) → All (λ file. name ≢ file) (files_of (request_of command.entry))
        → F.faults files.new name ≡ F.faults files.old name }
    ensures quiet { IsUndisturbed result → (name : List ℕ) → F.faults files.new name ≡ F.faults files.old name }
{
    let mut bytes = Vec::new(alloc);
    let end = files.read_file(file, &mut bytes, MATRIX_LIMIT);
    answer_read(alloc, crew, command, end, &bytes, files, sink)
}

/// Does what a command asks for with its file, once reading it has ended so, with these bytes.
fn answer_read<S: Searcher + Drop, F: Files, K: Sink>(
    alloc: Global,
    crew: Option<S>,
    command: Command<'_>,
    end: ReadEnd,
    bytes: &[u8],
    files: &mut F,
    sink: &mut K,
) -> Ended
    requires ranges { HasRanges (request_of command) }
    requires named { IsSome (file_of (request_of command)) }
    requires bytes { OnWhole end (length bytes.now ≤ matrix_file.limit) }
    ensures ended { (file : FileShown) → IsRead matrix_file file end bytes.now
        → EndsBy (IsFileAnswer matrix_file (IsBytesAnswer (answers_of_matrix (file_shown F.Files files.old files.new)
        (request_of command.entry))) file) (sink_shown K.Sink sink.old sink.new) result }
    ensures disturbed { end ≡ Failed → IsUndisturbed result → ⊥ }
    ensures told_stays { (name : List ℕ) → F.told files.new name ≡ F.told files.old name }
    ensures others_stay { (name : List ℕ) → All (λ file. name ≢ file) (files_of (request_of command.entry))
        → F.faults files.new name ≡ F.faults files.old name }
    ensures never_falls { (name : List ℕ) → F.faults files.old name ≤ F.faults files.new name }
    ensures quiet { IsUndisturbed result → (name : List ℕ) → F.faults files.new name ≡ F.faults files.old name }
{
    match end {
        ReadEnd::Whole => answer_bytes(alloc, crew, command, bytes, files, sink),
        ReadEnd::TooLong => refuse(alloc, sink, Cause::TooLong),
        ReadEnd::Failed => refuse(alloc, sink, Cause::ReadFault),
        ReadEnd::OutOfMemory => want_memory(sink),
    }
}

/// Does what a command asks for with the bytes of its matrix file.
fn answer_bytes<S: Searcher + Drop, F: Files, K: Sink>(
    alloc: Global,
    crew: Option<S>,
    command: Command<'_>,
    bytes: &[u8],
    files: &mut F,
    sink: &mut K,
) -> Ended
    requires ranges { HasRanges (request_of command) }
    requires named { IsSome (file_of (request_of command)) }
    requires bytes { length bytes.now ≤ matrix_file.limit }
    ensures ended { EndsBy (IsBytesAnswer (answers_of_matrix (file_shown F.Files files.old files.new)
        (request_of command.entry)) bytes.now) (sink_shown K.Sink sink.old sink.new) result }
    ensures told_stays { (name : List ℕ) → F.told files.new name ≡ F.told files.old name }
    ensures others_stay { (name : List ℕ) → All (λ file. name ≢ file) (files_of (request_of command.entry))
        → F.faults files.new name ≡ F.faults files.old name }
    ensures never_falls { (name : List ℕ) → F.faults files.old name ≤ F.faults files.new name }
    ensures quiet { IsUndisturbed result → (name : List ℕ) → F.faults files.new name ≡ F.faults files.old name }
{
    match command {
        Command::Check { proof, .. } => check_bytes(alloc, bytes, proof, files, sink),
        Command::Solve { limits, trace, .. } => solve_by(alloc, crew, bytes, limits, trace, sink),
        Command::Minimum { depth, .. } => search_by(alloc, crew, bytes, Mode::Least, depth, sink),
        Command::Copositive { depth, .. } => search_by(alloc, crew, bytes, Mode::Sign, depth, sink),
        Command::Sample { .. } => unreachable!(),
    }
}
