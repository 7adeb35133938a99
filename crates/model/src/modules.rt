// The reader of modules, which lists the files as it meets them.
ghost use Rattle.std.specs.Prelude.{◌≡◌};
ghost use Rattle.model.specs.Maps.{map_of};
ghost use Rattle.model.specs.Steps.{Gathers};
ghost use Rattle.model.specs.Audit.{audit_list, audit_module_over, audit_module};

use crate::fault::{Fault, Layout};
use crate::fields::{Fields, ModuleField};
use crate::files::Listing;
use crate::reader::Reader;

// A reader, and the modules that it has met.
#[derive(Drop)]
pub(crate) struct Lister<'a> {
    pub(crate) reader: Reader<'a>,
    pub(crate) list: Listing<'a>,
}

impl<'a> Lister<'a> {
    #[cycle(module_module_record_modules)]
    pub(crate) fn module(&mut self, holder: Option<usize>, depth: u8) -> Result<(), Fault>
        ensures { Gathers self.old self.new result (audit_module self.old.reader.at.end depth holder) }
    {
        if depth == 0 {
            let place = self.reader.at.place();
            return Err(Fault::Broken(Layout { place }));
        }
        self.module_record(holder, depth - 1)
    }

    // A module whose parts may go this deep; its file learns where its own declarations start.
    #[cycle(module_module_record_modules)]
    fn module_record(&mut self, holder: Option<usize>, depth: u8) -> Result<(), Fault>
        ensures { Gathers self.old self.new result (audit_module_over self.old.reader.at.end depth (audit_module self.old.reader.at.end depth) holder) }
    {
        let place = self.reader.at.place();
        let fields: Fields<ModuleField> = self.reader.at.fields()?;
        let name = self.reader.at.text()?;
        let number = self.list.next();
        self.reader.found.name(place, text::is_identifier(name));
        self.list.open(place, holder, name)?;
        self.modules(fields.has(ModuleField::Modules), Some(number), depth)?;
        let own = self.reader.at.place();
        self.reader.own(fields, depth)?;
        self.list.settle(number, own);
        Ok(())
    }

    // A list field of submodules, where it stands. Its items write the listing too and may lack memory, so it is not read by
    // `each`: that would need a trait over readers with and without a listing for this one loop.
    #[cycle(module_module_record_modules)]
    fn modules(&mut self, stands: bool, holder: Option<usize>, depth: u8) -> Result<(), Fault>
        ensures { Gathers self.old self.new result (audit_list self.old.reader.at.end (audit_module self.old.reader.at.end depth holder) stands) }
    {
        if !stands {
            return Ok(());
        }
        let n = self.reader.at.count()?;
        for _ in 0..n {
            self.module(holder, depth)?;
        }
        Ok(())
    }
}
