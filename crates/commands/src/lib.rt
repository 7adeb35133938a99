// All that the program does: its command line, and the two commands.
#![tactic(auto)]

ghost use Rattle.commands.specs.Words.{Asks};

mod call;
mod check;
mod digits;
mod report;
mod serve;

use std::{env, io};

// What the command line asks for. What is no command is a case and no None, since it has an answer of its own.
#[derive(Clone, Copy, Debug, PartialEq, Eq)]
enum Command {
    Check,
    Session,
    Unknown,
}

const USAGE: &str = "usage: pumpsooner check FILE..
           checks each FILE as a packed model, and prints a line for each:
           how many files the model has, or why and where it is refused
       pumpsooner session
           answers the calls on standard input, one a line: load HEX, count";

// Not all was done that was asked; what there is to say was printed.
#[derive(Clone, Copy, Debug, PartialEq, Eq)]
pub struct Failed;

// Why not all was done that was asked.
#[derive(Drop)]
pub(crate) enum Undone {
    // what there is to say was printed
    Said,
    Io(io::Error),
}

// By hand: a derive would want the crate thiserror and words for each case, for this one impl.
impl From<io::Error> for Undone {
    fn from(e: io::Error) -> Undone {
        Undone::Io(e)
    }
}

// Runs the command that the program's arguments name.
pub fn run(rt: &HostRuntime) -> Result<(), Failed> {
    match run_command(rt) {
        Ok(()) => Ok(()),
        Err(Undone::Said) => Err(Failed),
        Err(Undone::Io(e)) => {
            let _ = eprintln!(rt; "pumpsooner: {e}");
            Err(Failed)
        }
    }
}

fn run_command(rt: &HostRuntime) -> Result<(), Undone> {
    let mut words = match env::args(rt) {
        Ok(words) => words,
        Err(e) => {
            let _ = eprintln!(rt; "pumpsooner: the arguments cannot be read: {e}");
            return Err(Undone::Said);
        }
    };
    let _program = words.next();
    let Some(word) = words.next() else {
        return Err(usage(rt));
    };
    match command_of(word.as_str(), words.len()) {
        Command::Check => check::files(rt, words),
        Command::Session => Ok(serve::session(rt)?),
        Command::Unknown => Err(usage(rt)),
    }
}

// The command of a first word with that many words behind it.
fn command_of(word: &str, more: usize) -> Command
    ensures { Asks word.now more result }
{
    match (word, more) {
        ("check", 1..) => Command::Check,
        ("session", 0) => Command::Session,
        _ => Command::Unknown,
    }
}

// Shows what can be asked, which is nothing done.
fn usage(rt: &HostRuntime) -> Undone {
    let _ = eprintln!(rt; "{USAGE}");
    Undone::Said
}
