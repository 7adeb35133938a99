// The files of a model as the reader lists them.
ghost use Rattle.std.specs.Prelude.{◌≡◌, ◌<◌, length, map, OnOk, slice_set, get_or};
ghost use Rattle.model.specs.Steps.{file_of};
ghost use Rattle.model.specs.Listed.{Opened, with_own};

use std::alloc::AllocError;

// A file in short, by which it is reached without a walk over those before it.
#[derive(Clone, Copy, Debug, PartialEq, Eq)]
pub struct File {
    // where its module's record starts
    pub place: usize,
    // the number of the file whose module holds it: files are named by their numbers at the session's calls
    pub holder: Option<usize>,
    // where its own declarations start, behind its submodules
    pub own: usize,
}

// A module as the reader lists it: its file, and its name, a part of the model.
#[derive(Clone, Copy, Debug, PartialEq, Eq)]
pub struct Listed<'a> {
    pub file: File,
    pub name: &'a [u8],
}

#[derive(Drop)]
pub struct Listing<'a> {
    pub modules: Vec<Listed<'a>>,
}

impl<'a> Listing<'a> {
    // One module more, whose own declarations are still to be found.
    pub(crate) fn open(
        &mut self,
        place: usize,
        holder: Option<usize>,
        name: &'a [u8],
    ) -> Result<(), AllocError>
        ensures { OnOk result (Opened place holder name.now self.old self.new) }
    {
        self.modules.push(Listed {
            file: File {
                place,
                holder,
                // 0 until `settle` knows it; no Option, since each entry of a finished list has it
                own: 0,
            },
            name,
        })?;
        Ok(())
    }

    // How many files are listed: the next one's number.
    pub(crate) fn next(&self) -> usize
        ensures { result ≡ length (map file_of self.now.modules.items) }
    {
        self.modules.len()
    }

    // The module with this number learns where its own declarations start. Where no module has the number, all stay as they are.
    pub(crate) fn settle(&mut self, number: usize, own: usize)
        ensures { (d : _) → self.new.modules.items ≡ slice_set self.old.modules.items number (with_own own (get_or self.old.modules.items number d)) }
    {
        if number < self.modules.len() {
            self.modules[number].file.own = own;
        }
    }
}
