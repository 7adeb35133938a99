// Reading a whole model.
ghost use Rattle.model.specs.Steps.{Audits, Reads};

use crate::cursor::Cursor;
use crate::fault::{Fault, Layout};
use crate::files::Listing;
use crate::findings::Findings;
use crate::modules::Lister;
use crate::reader::Reader;
use std::alloc::Global;

// How deep modules, classes and expressions may go.
pub const DEEPEST: u8 = 64;

const VERSION: u8 = 1;

// What a model is found to be: where it breaks the rules that each item meets by itself, and its files.
#[derive(Drop)]
pub struct Audit<'a> {
    pub found: Findings,
    pub list: Listing<'a>,
}

// Reads a model by the layout: what its tree holds, or the first fault.
pub fn read_model<'a>(heap: Global, model: &'a [u8]) -> Result<Audit<'a>, Fault>
    ensures { Reads model.now result }
{
    pass(heap, model)
}

fn pass<'a>(heap: Global, model: &'a [u8]) -> Result<Audit<'a>, Fault>
    ensures { Audits model.now result }
{
    let mut lister = Lister {
        reader: Reader {
            at: Cursor::new(model),
            found: Findings {
                names: None,
                values: None,
                empty: None,
            },
        },
        list: Listing {
            modules: Vec::new(heap),
        },
    };
    let start = lister.reader.at.place();
    let version = lister.reader.at.byte()?;
    if version != VERSION {
        return Err(Fault::Broken(Layout { place: start }));
    }
    lister.module(None, DEEPEST)?;
    if !lister.reader.at.is_at_end() {
        let place = lister.reader.at.place();
        return Err(Fault::Broken(Layout { place }));
    }
    Ok(Audit {
        found: lister.reader.found,
        list: lister.list,
    })
}
