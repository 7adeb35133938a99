// What a session holds.
ghost use Rattle.std.specs.Prelude.{◌≡◌};
ghost use Rattle.model.specs.Read.{model as read_model_of};
ghost use Rattle.verdict.specs.Judged.{files_of};

use model::File;
use std::alloc::Global;

// A session and its model: the packed bytes, none before the first load (no model is empty, so none needs no Option, and the
// clauses of the calls speak of the bytes), and the list of files, by which file K is reached without a walk over those before it.
#[derive(Drop)]
pub struct Session {
    pub(crate) heap: Global,
    pub(crate) bytes: Vec<u8>,
    pub(crate) files: Vec<File>,
    ghost listed: { files.items ≡ files_of (read_model_of bytes.items) },
}
