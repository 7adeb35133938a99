// The calls of a session.
ghost use Rattle.std.specs.Prelude.{◌≡◌, []};
ghost use Rattle.session.specs.Calls.{Loaded, LoadsWhatMeets, count_of};

use crate::fault::Fault;
use crate::state::Session;
use std::alloc::Global;
use verdict::judge_model;

impl Session {
    // A session without a model.
    pub fn new(heap: Global) -> Session
        ensures { result.bytes.items ≡ [] }
    {
        Session {
            heap,
            bytes: Vec::new(heap),
            files: Vec::new(heap),
        }
    }

    // Makes these bytes the model, if they meet every rule.
    pub fn load(&mut self, bytes: &[u8]) -> Result<(), Fault>
        ensures answer { Loaded bytes.now self.old.bytes.items result self.new.bytes.items }
        ensures exactly { LoadsWhatMeets bytes.now result }
    {
        let files = judge_model(self.heap, bytes)?;
        let copy = Vec::from_slice(self.heap, bytes)?;
        self.bytes = copy;
        self.files = files;
        Ok(())
    }

    // How many files the model has.
    pub fn count(&self) -> Result<usize, Fault>
        ensures { result ≡ count_of self.now.bytes.items }
    {
        if self.bytes.is_empty() {
            return Err(Fault::NoModel);
        }
        Ok(self.files.len())
    }
}
