// The local name of a reference.
ghost use Rattle.std.specs.Prelude.{◌≡◌, ◌<◌, ◌++◌, length};
ghost use Rattle.model.specs.Read.{model as read_model_of};
ghost use Rattle.verdict.specs.Judged.{files_of};
ghost use Rattle.references.specs.References.{pair_of, rest_of};
ghost use Rattle.binding.specs.Named.{name_held};
ghost use Rattle.resolver.specs.Resolved.{named};
ghost use Rattle.session.specs.Local.{local_of, in_room, joined, Answers};

use crate::fault::Fault;
use crate::state::Session;
use binding::Names;
use chains::Loaded;
use model::File;
use references::{Reference, split_root};
use resolver::{Fault as Unresolved, resolve};
use std::alloc::Global;

// Writes a name in two parts to the buffer's start.
fn put(bound: &[u8], rest: &[u8], buffer: &mut [u8]) -> Result<usize, Fault>
    ensures { Answers (in_room (named (bound.now ++ rest.now)) (length buffer.old)) result buffer.old buffer.new }
{
    let front = bound.len();
    let all = front + rest.len();
    if buffer.len() < all {
        return Err(Fault::Room(all));
    }
    buffer[0..front].copy_from_slice(bound);
    buffer[front..all].copy_from_slice(rest);
    Ok(all)
}

fn write_name<'a>(
    names: &Names<'a>,
    reference: Reference<'a>,
    buffer: &mut [u8],
) -> Result<usize, Fault>
    ensures { Answers (in_room (joined (name_held names.now reference.entry) (rest_of (pair_of reference.entry).1)) (length buffer.old)) result buffer.old buffer.new }
{
    let (_, rest) = split_root(reference.name);
    match names.name_of(reference) {
        Some(bound) => put(bound, rest, buffer),
        None => Err(Fault::Resolver(Unresolved::Uncollected)),
    }
}

// Writes the local name for a file that is there, of a model that is read. Tried with a `Loaded` for the model and
// its files: of a slice inside a struct the check has no fact that its elements are bytes, which the proof needs.
fn local_in<'a>(
    heap: Global,
    model: &'a [u8],
    files: &'a [File],
    file: usize,
    reference: Reference<'a>,
    buffer: &mut [u8],
) -> Result<usize, Fault>
    requires listed { files.now ≡ files_of (read_model_of model.now) }
    requires there { file < length files.now }
    ensures { Answers (local_of model.now file (pair_of reference.entry) (length buffer.old)) result buffer.old buffer.new }
{
    let own = Loaded { model, files }.own_module(heap, file)?;
    let names = resolve(heap, model, files[file], own.as_slice())?;
    write_name(&names, reference, buffer)
}

impl Session {
    // Writes what a reference is called in this file to the buffer's start, and answers its length. The pair comes as two texts
    // and the buffer by `&mut`, since callers of any language have these.
    pub fn local<'a>(
        &'a self,
        file: usize,
        module: &'a [u8],
        attribute: &'a [u8],
        buffer: &mut [u8],
    ) -> Result<usize, Fault>
        ensures { Answers (local_of self.now.bytes.items file («module».now, attribute.now) (length buffer.old)) result buffer.old buffer.new }
    {
        if self.bytes.is_empty() {
            return Err(Fault::NoModel);
        }
        if file >= self.files.len() {
            return Err(Fault::NoFile);
        }
        let model = self.bytes.as_slice();
        let files = self.files.as_slice();
        let reference = Reference {
            from: module,
            name: attribute,
        };
        local_in(self.heap, model, files, file, reference, buffer)
    }
}
