// The office's and the workshop's tool over sheet files.
#![tactic(auto)]

mod cell_text;
mod command;
mod refusal;
mod show;

use command::run_words;
use std::env;
use std::process::ExitCode;

fn main(rt: HostRuntime) -> anyhow::Result<ExitCode> {
    let words: Vec<String> = env::args(&rt)?.skip(1).collect(rt.alloc())?;
    run_words(&rt, words.as_slice())
}
