// What the names of a file hold.
ghost use Rattle.std.specs.Prelude.{◌≡◌};
ghost use Rattle.std.specs.Option.{option_map};
ghost use Rattle.binding.specs.Named.{name_held};

use crate::name::{Bindings, text_of};
use crate::names::Names;
use references::Reference;

impl<'a> Names<'a> {
    // The bound name of a reference, where it is one of the file's: a part of the model or of the pool.
    pub fn name_of<'s>(&'s self, reference: Reference<'a>) -> Option<&'s [u8]>
        ensures { option_map (λ x. x.now) result ≡ name_held self.now reference.entry }
    {
        let pool = self.pool.as_slice();
        self.renaming
            .get(&reference)
            .map(|name| text_of(pool, *name))
    }

    // What the file binds.
    pub fn bindings(&self) -> Bindings<'_, 'a>
        ensures pool { result.pool.now ≡ self.now.pool.items }
        ensures entries { result.entries.now ≡ self.now.entries.items }
    {
        Bindings {
            pool: self.pool.as_slice(),
            entries: self.entries.as_slice(),
        }
    }
}
