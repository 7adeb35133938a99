// Why a model was not loaded or counted, and the words for it.
ghost use Rattle.std.specs.Prelude.{◌≡◌, Some};
ghost use Rattle.session.specs.Answers.{told};
ghost use Rattle.commands.specs.Texts.{cause_of, failure_text};

use resolver::Fault as Unresolved;
use session::Fault;
use std::fmt;
use verdict::Refusal;

// A fault, as the session's answer shows it.
#[derive(Clone, Copy)]
pub struct Failure(pub Fault);

// By hand, since its contract is the text.
impl fmt::Display for Failure {
    ghost output = { λ f. Some (failure_text f.0) };

    fn fmt<W: fmt::Write>(&self, f: &mut fmt::Formatter<W>) -> fmt::Result {
        match self.0.told() {
            Some((number, place)) => write!(f, "refused {number} at {place}"),
            None => f.write_str("out of memory"),
        }
    }
}

// What there is to say of a fault: words and no newtype with Display, since they stand within two longer texts.
pub(crate) fn cause(fault: &Fault) -> &'static str
    ensures { result.now ≡ cause_of (told fault.now) }
{
    match fault {
        Fault::Reader(Refusal::Size) => "empty or over 16,384 bytes",
        Fault::Reader(Refusal::Layout(_)) => "layout or depth",
        Fault::Reader(Refusal::Name(_)) => "name",
        Fault::Reader(Refusal::Value(_)) => "number or string",
        Fault::Reader(Refusal::Sibling(_)) => "two sibling modules of one name",
        Fault::Reader(Refusal::Empty(_)) => "attribute with neither annotation nor value",
        Fault::Reader(Refusal::Limit(_)) => "too many modules, names or references",
        Fault::NoModel => "no model",
        // these are answers of `local`, which the program does not call
        Fault::Resolver(Unresolved::Undeclared(_))
        | Fault::Resolver(Unresolved::Exhausted(_))
        | Fault::Resolver(Unresolved::Uncollected)
        | Fault::NoFile
        | Fault::Room(_) => "unknown cause",
        Fault::Reader(Refusal::Memory) | Fault::Resolver(Unresolved::Memory) | Fault::Memory => {
            "out of memory"
        }
    }
}
