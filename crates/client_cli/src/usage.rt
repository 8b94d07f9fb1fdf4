use clap::{Arg, ArgAction, Command};
use std::alloc::{AllocError, Global};
use std::io::Eprint;

/// The usage text.
fn usage(alloc: Global) -> Result<String, AllocError> {
    let folder = Arg::new(alloc, "DIR").required(true).action(ArgAction::Set);
    let database = Arg::new(alloc, "DATABASE").action(ArgAction::Set);
    let run = Command::new(alloc, "run").arg(folder)?.arg(database)?;
    let mut program = Command::new(alloc, "fsclient").subcommand(run)?;
    program.render_long_help()
}

/// Prints the usage to the standard error. Where its text finds no memory nothing is printed.
pub fn print_usage<R: Eprint + AllocGlobal>(rt: &R) -> Option<()> {
    let text = usage(rt.alloc()).ok()?;
    eprint!(rt; "{text}").ok()
}
