//! Prints names that follow names, and the modules that an example's files stand for: calls that want memory, which no clause
//! says they get.

#![tactic(auto)]

use chains::Loaded;
use naming::{append_next, next_name};
use std::str::from_utf8;
use std::{fs, io};
use verdict::judge_model;

const NAMES: [&str; 11] = [
    "Rate",
    "Rate007",
    "R18446744073709551614",
    "R18446744073709551615",
    "R18446744073709551616",
    "R00000000000000000000000000000000000000007",
    "Row9",
    "T2b",
    "R0",
    "41",
    "",
];

fn main(rt: HostRuntime) -> io::Result<()> {
    for name in NAMES {
        follow(&rt, name)?;
    }
    modules(&rt, "payroll.bin")?;
    gather(&rt)
}

// The name that follows this one.
fn follow(rt: &HostRuntime, name: &str) -> io::Result<()> {
    print!(rt; "{name}: ")?;
    match next_name(rt.alloc(), name.as_bytes())? {
        Some(next) => show(rt, next.as_slice()),
        None => println!(rt; "none"),
    }
}

// The names that follow all of these, in one buffer.
fn gather(rt: &HostRuntime) -> io::Result<()> {
    let mut all = Vec::new(rt.alloc());
    for name in NAMES {
        all.push(b' ')?;
        append_next(rt.alloc(), &mut all, name.as_bytes())?;
    }
    print!(rt; "in one buffer:")?;
    show(rt, all.as_slice())
}

// The dotted name of each file's module.
fn modules(rt: &HostRuntime, file: &str) -> io::Result<()> {
    let model = fs::read(rt, file)?;
    let Ok(files) = judge_model(rt.alloc(), model.as_slice()) else {
        return println!(rt; "{file}: refused");
    };
    let loaded = Loaded {
        model: model.as_slice(),
        files: files.as_slice(),
    };
    for number in 0..files.len() {
        print!(rt; "{file} {number}: ")?;
        show(rt, loaded.own_module(rt.alloc(), number)?.as_slice())?;
    }
    Ok(())
}

fn show(rt: &HostRuntime, text: &[u8]) -> io::Result<()> {
    match from_utf8(text) {
        Ok(text) => println!(rt; "{text}"),
        Err(_) => println!(rt; "no text"),
    }
}
