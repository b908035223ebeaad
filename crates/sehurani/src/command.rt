// What the program is asked to do, and the status that it ends with: 1 where a sheet is refused or a command is not known.
// Either has then been said.
use crate::show::show;
use std::alloc::{AllocError, Global};
use std::fs;
use std::process::ExitCode;
use std::rt::Files;

const USAGE: &str = "usage:
  sehurani show FILE     print a sheet file, row by row
  sehurani batch FILE    run each line of a text file as a command";

/// Runs a command, or the commands of a file. A `match` on two names is plainer than a table of functions.
pub(crate) fn run_words(
    rt: &(impl Files + Print + AllocGlobal),
    words: &[String],
) -> anyhow::Result<ExitCode> {
    match words {
        [name, path] if name.as_str() == "batch" => batch(rt, path.as_str()),
        _ => run_command(rt, words),
    }
}

fn run_command(
    rt: &(impl Files + Print + AllocGlobal),
    words: &[String],
) -> anyhow::Result<ExitCode> {
    match words {
        [name, path] if name.as_str() == "show" => show(rt, path.as_str()),
        _ => {
            rt.println(USAGE)?;
            Ok(ExitCode::FAILURE)
        }
    }
}

/// Runs the commands of a file, one to a line, each printed before what it prints.
fn batch(rt: &(impl Files + Print + AllocGlobal), path: &str) -> anyhow::Result<ExitCode> {
    let heap = rt.alloc();
    let text = fs::read_to_string(rt, path)?;
    for line in text.as_str().lines() {
        println!(rt; "$ sehurani {line}")?;
        let words = words_of(heap, line)?;
        let _ = run_command(rt, words.as_slice())?;
    }
    Ok(ExitCode::SUCCESS)
}

fn words_of(heap: Global, line: &str) -> Result<Vec<String>, AllocError> {
    line.split_whitespace()
        .map(|word| String::from_str(heap, word))
        .try_collect(heap)
}
