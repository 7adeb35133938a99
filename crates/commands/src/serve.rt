// `pumpsooner session`: an answer for each call on standard input.
ghost use Rattle.std.specs.Prelude.{◌≡◌, Some};
ghost use Rattle.session.specs.Calls.{count_of};
ghost use Rattle.commands.specs.Replies.{Ends, Replies, Loading, counted};
ghost use Rattle.commands.specs.Texts.{answer_text};

use crate::call::{Call, call_of};
use crate::digits::unhex;
use crate::report::Failure;
use session::{Fault, Session};
use std::alloc::Global;
use std::io::{BufRead, BufReader, BufWriter, Write};
use std::{fmt, io};

#[derive(Clone, Copy, Debug, PartialEq, Eq)]
enum Answer {
    Loaded,
    Count(usize),
    Unknown,
}

// The line that answers a line.
#[derive(Clone, Copy)]
struct Reply(Result<Answer, Fault>);

// By hand, since its contract is the text.
impl fmt::Display for Reply {
    ghost output = { λ r. Some (answer_text r.0) };

    fn fmt<W: fmt::Write>(&self, f: &mut fmt::Formatter<W>) -> fmt::Result {
        match self.0 {
            Ok(Answer::Loaded) => f.write_str("loaded"),
            Ok(Answer::Count(files)) => write!(f, "count {files}"),
            Ok(Answer::Unknown) => f.write_str("unknown call"),
            Err(fault) => write!(f, "{}", Failure(fault)),
        }
    }
}

// Answers every line, in one session. It is done at the end of the input.
pub(crate) fn session(rt: &HostRuntime) -> io::Result<()> {
    let heap = rt.alloc();
    let mut session = Session::new(heap);
    let mut input = BufReader::new(heap, rt.stdin())?;
    let mut output = BufWriter::new(heap, rt.stdout())?;
    let mut line = Vec::new(heap);
    // no iterator of lines, since that would hold the reader, whose buffer is looked at in each turn
    for _ in 0..u64::MAX {
        // before a wait for the next call, all answers are out
        if !input.buffer().contains(&b'\n') {
            output.flush()?;
        }
        line.clear();
        if input.read_until(b'\n', &mut line)? == 0 {
            break;
        }
        let reply = Reply(reply_to(heap, &mut session, without_newline(line.as_slice())));
        writeln!(output, "{reply}")?;
    }
    output.flush()
}

// The line with no newline at its end.
fn without_newline(line: &[u8]) -> &[u8]
    ensures { Ends line.now result.now }
{
    line.strip_suffix(b"\n").unwrap_or(line)
}

// The answer to a line. One that is no call leaves the session as it is.
fn reply_to(heap: Global, session: &mut Session, line: &[u8]) -> Result<Answer, Fault>
    ensures { Replies line.now session.old.bytes.items session.new.bytes.items result }
{
    match call_of(line) {
        Call::Load(digits) => load(heap, session, digits),
        Call::Count => count(session),
        Call::Unknown => Ok(Answer::Unknown),
    }
}

fn load(heap: Global, session: &mut Session, digits: &[u8]) -> Result<Answer, Fault>
    ensures { Loading digits.now session.old.bytes.items session.new.bytes.items result }
{
    let Some(model) = unhex(heap, digits)? else {
        return Ok(Answer::Unknown);
    };
    session.load(model.as_slice())?;
    Ok(Answer::Loaded)
}

fn count(session: &Session) -> Result<Answer, Fault>
    ensures { result ≡ counted (count_of session.now.bytes.items) }
{
    session.count().map(Answer::Count)
}
