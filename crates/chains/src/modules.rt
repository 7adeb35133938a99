//! A file's module, by the model and its list of files in short.

ghost use Rattle.std.specs.Prelude.{◌≡◌, ◌++◌, IfOk, OnOk};
ghost use Rattle.model.specs.Read.{deepest_allowed};
ghost use Rattle.chains.specs.Chains.{own_in, package_in};

use model::{DEEPEST, File, ModuleField};
use std::alloc::{AllocError, Global};
use walk::Header;

/// A model and its files in short.
#[derive(Clone, Copy)]
pub struct Loaded<'a> {
    pub model: &'a [u8],
    pub files: &'a [File],
}

impl<'a> Loaded<'a> {
    // Appends the dotted name of the file with this number. A name lies in the record of each module of the chain, so
    // it is put together from the root on.
    fn append_module(&self, out: &mut Vec<u8>, number: usize, depth: u8) -> Result<(), AllocError>
        ensures { OnOk result (out.new.items ≡ out.old.items ++ own_in self.now.model.now self.now.files.now depth number) }
    {
        if depth == 0 {
            return Ok(());
        }
        let Some(file) = self.files.get(number) else {
            return Ok(());
        };
        if let Some(holder) = file.holder {
            self.append_module(out, holder, depth - 1)?;
            out.push(b'.')?;
        }
        let header: Header<ModuleField> = Header::at(self.model, file.place);
        out.extend_from_slice(header.name)?;
        Ok(())
    }

    /// The dotted name of the module that the file with this number stands for; empty past the last file.
    pub fn own_module(&self, heap: Global, number: usize) -> Result<Vec<u8>, AllocError>
        ensures { IfOk result (λ v. v.items ≡ own_in self.now.model.now self.now.files.now deepest_allowed number) }
    {
        let mut out = Vec::new(heap);
        self.append_module(&mut out, number, DEEPEST)?;
        Ok(out)
    }
}

/// Whether a file's module is a package: it is the root, or has submodules.
// Model and file are two arguments, as at `walk::collect`.
pub fn is_package(model: &[u8], file: File) -> bool
    ensures { result ≡ package_in model.now file }
{
    let header: Header<ModuleField> = Header::at(model, file.place);
    file.holder.is_none() || header.fields.has(ModuleField::Modules)
}
