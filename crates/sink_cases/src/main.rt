//! Offers lines to both sinks, lent, and prints a line for each case: every line offered, whether it was taken and how
//! many are then, and what the sink holds at the end.

#![tactic(auto)]

use sink::{BufferSink, ComparingSink, Sink, offer_all};
use std::io;
use std::str::from_utf8;

// Lines for a sink that holds this: a buffer of that size, or a text to compare with.
struct Case<'a, T> {
    name: &'a str,
    holds: T,
    lines: &'a [&'a str],
}

const ONE_BY_ONE: &[Case<'static, usize>] = &[
    Case {
        name: "exactly full",
        holds: 6,
        lines: &["ab", "cd", ""],
    },
    Case {
        name: "one byte short, then a shorter line",
        holds: 5,
        lines: &["ab", "cd", "c", ""],
    },
    Case {
        name: "empty lines",
        holds: 2,
        lines: &["", "", ""],
    },
    Case {
        name: "size 0",
        holds: 0,
        lines: &["", "a"],
    },
    Case {
        name: "a newline in a line",
        holds: 9,
        lines: &["a\nb", "\n", "ab\n", "ab"],
    },
    Case {
        name: "more than any memory",
        holds: usize::MAX,
        lines: &[""],
    },
];

const COMPARISONS: &[Case<'static, &'static str>] = &[
    Case {
        name: "right lines",
        holds: "ab\n\ncd\n",
        lines: &["ab", "", "cd", ""],
    },
    Case {
        name: "not all of them",
        holds: "ab\n\ncd\n",
        lines: &["ab", ""],
    },
    Case {
        name: "wrong lines, then right ones",
        holds: "ab\ncd\n",
        lines: &["cd", "a", "abc", "", "ab", "ab", "c", "cd"],
    },
    Case {
        name: "no last newline",
        holds: "ab\ncd",
        lines: &["ab", "cd", "c", ""],
    },
    Case {
        name: "no newline at all",
        holds: "ab",
        lines: &["ab", ""],
    },
    Case {
        name: "a newline in a line",
        holds: "a\nb\n",
        lines: &["a\nb", "a\n", "a", "b"],
    },
    Case {
        name: "only a newline",
        holds: "\n",
        lines: &["\n", "", ""],
    },
    Case {
        name: "an empty text",
        holds: "",
        lines: &["", "a"],
    },
];

const RUNS: &[Case<'static, usize>] = &[
    Case {
        name: "a run that fits",
        holds: 4,
        lines: &["a", "b"],
    },
    Case {
        name: "a run one line too long",
        holds: 4,
        lines: &["a", "b", "c"],
    },
    Case {
        name: "a run that goes no further behind a refused line",
        holds: 6,
        lines: &["a", "\n", "b"],
    },
    Case {
        name: "the empty run",
        holds: 0,
        lines: &[],
    },
];

fn main(rt: HostRuntime) -> io::Result<()> {
    for case in ONE_BY_ONE {
        offer_to_buffer(&rt, case)?;
    }
    for case in COMPARISONS {
        compare(&rt, case)?;
    }
    for case in RUNS {
        offer_run(&rt, case)?;
    }
    Ok(())
}

// To a sink into a buffer, lines one by one.
fn offer_to_buffer(rt: &HostRuntime, case: &Case<usize>) -> io::Result<()> {
    print!(rt; "{}: buffer of {}:", case.name, case.holds)?;
    let Ok(mut sink) = BufferSink::new(rt.alloc(), case.holds) else {
        return println!(rt; " no memory");
    };
    offer_each(rt, &mut sink, case.lines)?;
    show_text(rt, &sink)
}

// To a sink that compares, lines one by one.
fn compare(rt: &HostRuntime, case: &Case<&str>) -> io::Result<()> {
    print!(rt; "{}: comparing with {:?}:", case.name, case.holds)?;
    let mut sink = ComparingSink::new(case.holds.as_bytes());
    offer_each(rt, &mut sink, case.lines)?;
    let matched = sink.matched();
    let complete = sink.is_complete();
    println!(rt; " matched {matched}, complete {complete}")
}

// To a sink into a buffer, a run.
fn offer_run(rt: &HostRuntime, case: &Case<usize>) -> io::Result<()> {
    print!(rt; "{}: buffer of {}:", case.name, case.holds)?;
    let mut sink = BufferSink::new(rt.alloc(), case.holds)?;
    let run = case
        .lines
        .iter()
        .map(|line| line.as_bytes())
        .collect::<Vec<_>>(rt.alloc())?;
    match offer_all(&mut &mut sink, run.as_slice()) {
        Ok(()) => print!(rt; " all taken,")?,
        Err(refusal) => print!(rt; " {refusal},")?,
    }
    let count = sink.count();
    print!(rt; " count {count},")?;
    show_text(rt, &sink)
}

// The answer to each line, with the count after it. The sink is any, here one that is lent.
fn offer_each<S: Sink + Drop>(rt: &HostRuntime, mut sink: S, lines: &[&str]) -> io::Result<()> {
    for line in lines {
        let answer = match sink.offer(line.as_bytes()) {
            Ok(()) => "taken",
            Err(_) => "refused",
        };
        let count = sink.count();
        print!(rt; " {line:?} {answer} {count},")?;
    }
    Ok(())
}

fn show_text(rt: &HostRuntime, sink: &BufferSink) -> io::Result<()> {
    match from_utf8(sink.text()) {
        Ok(text) => println!(rt; " text {text:?}"),
        Err(_) => println!(rt; " no text"),
    }
}
