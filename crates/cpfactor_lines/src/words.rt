//! Reading a command line.

ghost use Rattle.std.specs.Prelude.{◌≡◌, ℕ, ◌+◌, ◌≤◌, List, Some, None, Ok, Err, IfOk, IfErr, option_map};
ghost use Rattle.cpfactor_lines.specs.Arguments.{fault_place, option_named, plain_argument};
ghost use Rattle.cpfactor_lines.specs.Commands.{AreWorkers, HasRanges, IsCommandLine, IsUsageAt, IsReadOneWay, read_as, solve, check, minimum, copositive, sample, workers, depth_of, limits_of, workers_of, usual_limits};
ghost use Rattle.cpfactor_lines.specs.Requests.{texts, request_of, plain_of, options_of};

use crate::arguments::{is_among, number_argument, option_value, plain_places};
use crate::command::{Command, Usage};
use crate::row::{CommandRow, Form, OptionRow};
use perfect_walk::Limits;

/// The limit of the walk's steps.
const PIVOTS_OPTION: OptionRow = OptionRow {
    name: "--pivots",
    value: Some(Form::Number {
        low: 0,
        high: 100_000,
    }),
};

/// The depth of a search.
const DEPTH_OPTION: OptionRow = OptionRow {
    name: "--depth",
    value: Some(Form::Number { low: 0, high: 200 }),
};

/// How many workers search.
const WORKERS_OPTION: OptionRow = OptionRow {
    name: "--workers",
    value: Some(Form::Number { low: 1, high: 16 }),
};

/// That the trace of the walk is wanted.
const TRACE_OPTION: OptionRow = OptionRow {
    name: "--trace",
    value: None,
};

/// `solve FILE [--pivots N] [--depth N] [--workers N] [--trace]`.
const SOLVE_ROW: CommandRow = CommandRow {
    plain: &[Form::FileName],
    options: &[PIVOTS_OPTION, DEPTH_OPTION, WORKERS_OPTION, TRACE_OPTION],
};

/// `check FILE PROOF`.
const CHECK_ROW: CommandRow = CommandRow {
    plain: &[Form::FileName, Form::FileName],
    options: &[],
};

/// `minimum FILE [--depth N] [--workers N]`, and `copositive` likewise.
const SEARCH_ROW: CommandRow = CommandRow {
    plain: &[Form::FileName],
    options: &[DEPTH_OPTION, WORKERS_OPTION],
};

/// `sample N K X [--workers M]`.
const SAMPLE_ROW: CommandRow = CommandRow {
    plain: &[
        Form::Number { low: 1, high: 6 },
        Form::Number {
            low: 1,
            high: 100_000,
        },
        Form::Number {
            low: 0,
            high: u64::MAX,
        },
    ],
    options: &[WORKERS_OPTION],
};

/// The limit of the walk's steps where none is named.
const USUAL_PIVOTS: u64 = 10_000;

/// The depth of a search that names none.
const USUAL_DEPTH: u64 = 60;

/// The number of workers where none is named.
const USUAL_WORKERS: u64 = 1;

/// The command that the words after the program's name ask for.
///
/// Refused where they are no command line of the program, at the position of the first word that cannot be read:
/// an unknown command at 1, an unknown or repeated option and a surplus argument at their own position, a number out of
/// form at the number's, and a missing word at the position after the last. The grammar is this program's own.
pub fn read_words(words: &[String]) -> Result<Command<'_>, Usage>
    ensures command { IfOk result (λ command. IsCommandLine (texts words.now) (request_of command)) }
    ensures ranges { IfOk result (λ command. HasRanges (request_of command)) }
    ensures usage { IfErr result (λ usage. IsUsageAt (texts words.now) usage.position) }
{
    let [name, arguments @ ..] = words else {
        return Err(Usage { position: 1 });
    };
    match name.as_str() {
        "solve" => solve(arguments),
        "check" => check(arguments),
        "minimum" => minimum(arguments),
        "copositive" => copositive(arguments),
        "sample" => sample(arguments),
        _ => Err(Usage { position: 1 }),
    }
}

/// The command `solve` with these words after its name.
fn solve(words: &[String]) -> Result<Command<'_>, Usage>
    ensures command { IfOk result (λ command. read_as (Some solve) (texts words.now) ≡ Ok (request_of command)) }
    ensures ranges { IfOk result (λ command. HasRanges (request_of command)) }
    ensures usage { IfErr result (λ usage. read_as (Some solve) (texts words.now) ≡ Err usage.position) }
{
    let [file, ..] = plain_places(&SOLVE_ROW, words)?;
    Ok(Command::Solve {
        file: words[file].as_str(),
        limits: limits(words),
        workers: workers(&SOLVE_ROW, words),
        trace: is_among(TRACE_OPTION.name, words),
    })
}

/// The limits of the walk that the words of `solve` name.
fn limits(words: &[String]) -> Limits
    requires { fault_place solve.plain solve.options (texts words.now) ≡ None }
    ensures value { result ≡ limits_of (texts words.now) }
    ensures pivots { result.pivots ≤ 100000 }
    ensures depth { result.depth ≤ 200 }
{
    Limits {
        pivots: option_value(&SOLVE_ROW, words, PIVOTS_OPTION.name, USUAL_PIVOTS) as u32,
        depth: option_value(&SOLVE_ROW, words, DEPTH_OPTION.name, USUAL_DEPTH) as u8,
    }
}

/// The command `check` with these words after its name.
fn check(words: &[String]) -> Result<Command<'_>, Usage>
    ensures command { IfOk result (λ command. read_as (Some check) (texts words.now) ≡ Ok (request_of command)) }
    ensures ranges { IfOk result (λ command. HasRanges (request_of command)) }
    ensures usage { IfErr result (λ usage. read_as (Some check) (texts words.now) ≡ Err usage.position) }
{
    let [file, proof, ..] = plain_places(&CHECK_ROW, words)?;
    Ok(Command::Check {
        file: words[file].as_str(),
        proof: words[proof].as_str(),
    })
}

/// The command `minimum` with these words after its name.
fn minimum(words: &[String]) -> Result<Command<'_>, Usage>
    ensures command { IfOk result (λ command. read_as (Some minimum) (texts words.now) ≡ Ok (request_of command)) }
    ensures ranges { IfOk result (λ command. HasRanges (request_of command)) }
    ensures usage { IfErr result (λ usage. read_as (Some minimum) (texts words.now) ≡ Err usage.position) }
{
    let (file, depth) = file_and_depth(words)?;
    Ok(Command::Minimum {
        file,
        depth,
        workers: workers(&SEARCH_ROW, words),
    })
}

/// The command `copositive` with these words after its name.
fn copositive(words: &[String]) -> Result<Command<'_>, Usage>
    ensures command { IfOk result (λ command. read_as (Some copositive) (texts words.now) ≡ Ok (request_of command)) }
    ensures ranges { IfOk result (λ command. HasRanges (request_of command)) }
    ensures usage { IfErr result (λ usage. read_as (Some copositive) (texts words.now) ≡ Err usage.position) }
{
    let (file, depth) = file_and_depth(words)?;
    Ok(Command::Copositive {
        file,
        depth,
        workers: workers(&SEARCH_ROW, words),
    })
}

/// The command `sample` with these words after its name.
fn sample(words: &[String]) -> Result<Command<'_>, Usage>
    ensures command { IfOk result (λ command. read_as (Some sample) (texts words.now) ≡ Ok (request_of command)) }
    ensures ranges { IfOk result (λ command. HasRanges (request_of command)) }
    ensures usage { IfErr result (λ usage. read_as (Some sample) (texts words.now) ≡ Err usage.position) }
{
    let [n, k, first] = plain_places(&SAMPLE_ROW, words)?;
    Ok(Command::Sample {
        n: number_argument(words, n) as u8,
        k: number_argument(words, k) as u32,
        first: number_argument(words, first),
        workers: workers(&SAMPLE_ROW, words),
    })
}

/// The file and the depth that the words of a search name.
fn file_and_depth(words: &[String]) -> Result<(&str, u8), Usage>
    ensures read { IfOk result (λ _. fault_place minimum.plain minimum.options (texts words.now) ≡ None) }
    ensures file { IfOk result (λ named. named.0.now ≡ plain_argument minimum.options (texts words.now) 0) }
    ensures depth { IfOk result (λ named. named.1 ≡ depth_of (texts words.now)) }
    ensures within { IfOk result (λ named. named.1 ≤ 200) }
    ensures usage { IfErr result (λ usage. option_map (λ place. place + 2)
        (fault_place minimum.plain minimum.options (texts words.now)) ≡ Some usage.position) }
{
    let [file, ..] = plain_places(&SEARCH_ROW, words)?;
    Ok((words[file].as_str(), depth(words)))
}

/// The depth that the words of a search name.
fn depth(words: &[String]) -> u8
    requires { fault_place minimum.plain minimum.options (texts words.now) ≡ None }
    ensures value { result ≡ depth_of (texts words.now) }
    ensures within { result ≤ 200 }
{
    option_value(&SEARCH_ROW, words, DEPTH_OPTION.name, USUAL_DEPTH) as u8
}

/// The number of workers that the words of a command name, whose row has that option.
fn workers(row: &CommandRow, words: &[String]) -> u8
    requires read { fault_place (plain_of row.now) (options_of row.now) (texts words.now) ≡ None }
    requires option { option_named (options_of row.now) workers.name ≡ Some workers }
    ensures value { result ≡ workers_of (texts words.now) }
    ensures within { AreWorkers result }
{
    option_value(row, words, WORKERS_OPTION.name, USUAL_WORKERS) as u8
}

/// The limits of a walk where no words name them.
pub fn usual_limits() -> Limits
    ensures { result ≡ usual_limits }
{
    Limits {
        pivots: USUAL_PIVOTS as u32,
        depth: USUAL_DEPTH as u8,
    }
}

/// Each list of words is read in one way: it is a command line for one request, or is at fault at one position.
/// However many words there are, that position is at most 32, since no option is given twice and plain arguments
/// are few.
pub fn words_are_read_one_way()
    ensures one_way { (words : List (List ℕ)) → IsReadOneWay words }
    ensures near { (words : List (List ℕ)) (position : ℕ) → IsUsageAt words position → position ≤ 32 }
{}
