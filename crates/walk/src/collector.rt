// What a file of the model declares and what it refers to.
ghost use Rattle.std.specs.Prelude.{IfOk, OnOk};
ghost use Rattle.model.specs.Read.{deepest_allowed};
ghost use Rattle.walk.specs.Collects.{Collects, DeclaresEach};

use crate::cursor::Cursor;
use crate::walker::Walker;
use model::{DEEPEST, Declared, Fields, File, ModuleField, Use};
use std::alloc::{AllocError, Global};

// The declared names and the references of a file, each in the order of their places.
#[derive(Drop)]
pub struct Collected<'a> {
    pub declared: Vec<Declared<'a>>,
    pub uses: Vec<Use<'a>>,
}

// A walk, and what was declared on it.
#[derive(Drop)]
pub(crate) struct Collector<'a> {
    pub(crate) walker: Walker<'a>,
    pub(crate) declared: Vec<Declared<'a>>,
}

impl<'a> Collector<'a> {
    // A list field of a module: its count, and then as many records, each walked by `item`.
    fn own<F: Fn(&mut Walker<'a>, u8) -> Result<Declared<'a>, AllocError>>(
        &mut self,
        stands: bool,
        item: F,
    ) -> Result<(), AllocError>
        requires { F.IsAlwaysCallable item }
        ensures { OnOk result (DeclaresEach F.Fn item deepest_allowed stands self.old self.new) }
    {
        let n = self.walker.at.count(stands);
        // By `times` this would be a closure around a closure, which is no plainer.
        for _ in 0..n {
            let one = item(&mut self.walker, DEEPEST)?;
            self.declared.push(one)?;
        }
        Ok(())
    }
}

// The declarations of a file stand at its `own`, and which fields they have at its `place`. Model and file are two arguments, since
// callers have the file from lists of different kinds.
pub fn collect<'a>(heap: Global, model: &'a [u8], file: File) -> Result<Collected<'a>, AllocError>
    ensures { IfOk result (λ v. Collects model.now file v) }
{
    let fields: Fields<ModuleField> = Cursor::at(model, file.place).fields();
    let mut all = Collector {
        walker: Walker {
            at: Cursor::at(model, file.own),
            uses: Vec::new(heap),
        },
        declared: Vec::new(heap),
    };
    all.own(fields.has(ModuleField::Classes), Walker::walk_class)?;
    all.own(fields.has(ModuleField::Functions), Walker::walk_function)?;
    all.own(fields.has(ModuleField::Attributes), Walker::walk_attribute)?;
    Ok(Collected {
        declared: all.declared,
        uses: all.walker.uses,
    })
}
