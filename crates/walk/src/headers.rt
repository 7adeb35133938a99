// How a record begins, by which a module is known without a walk over what it holds.
ghost use Rattle.std.specs.Prelude.{◌≡◌, drop};
ghost use Rattle.model.specs.Maps.{map_of};
ghost use Rattle.walk.specs.Total.{number as number_at, text as text_at};

use crate::cursor::Cursor;
use model::{Field, Fields};

// Which fields a record has, and its name.
#[derive(Clone, Copy)]
pub struct Header<'a, F> {
    pub fields: Fields<F>,
    pub name: &'a [u8],
}

impl<'a, F: Field> Header<'a, F> {
    // The header of the record at this place.
    pub fn at(model: &'a [u8], place: usize) -> Self
        ensures fields { map_of result.fields ≡ (number_at (drop place model.now)).0 }
        ensures name { result.name.now ≡ (text_at (number_at (drop place model.now)).1).0 }
    {
        let mut at = Cursor::at(model, place);
        at.header()
    }
}

impl<'a> Cursor<'a> {
    // The header of the next record.
    pub fn header<F: Field>(&mut self) -> Header<'a, F>
        ensures fields { map_of result.fields ≡ (number_at self.old.rest.now).0 }
        ensures name { result.name.now ≡ (text_at (number_at self.old.rest.now).1).0 }
        ensures rest { self.new.rest.now ≡ (text_at (number_at self.old.rest.now).1).1 }
        ensures end { self.new.end ≡ self.old.end }
    {
        let fields = self.fields();
        let name = self.text();
        Header { fields, name }
    }
}
