// A cursor over the packed bytes, which steps through numbers, texts and tags. It keeps what is left and the model's length,
// from which a place is told, and at which a fault shows where the bytes run out.
ghost use Rattle.std.specs.Prelude.{◌≡◌, IsTrue, length, [], ◌↔◌};
ghost use Rattle.model.specs.Read.{place as place_of, byte as byte_at, number as number_at, text as text_at, fields as fields_at, star_fields as star_fields_at, count as count_at, head as head_at};
ghost use Rattle.model.specs.Maps.{map_of};
ghost use Rattle.model.specs.Steps.{Steps, Takes, as_is, head_of};

use crate::expression::Expression;
use crate::fault::Layout;
use crate::fields::{Field, Fields, ValueField};

#[derive(Clone, Copy, Debug)]
pub(crate) struct Cursor<'a> {
    rest: &'a [u8],
    end: usize,
}

impl<'a> Cursor<'a> {
    // The cursor at the start of a model.
    pub(crate) fn new(model: &'a [u8]) -> Self
        ensures rest { result.rest.now ≡ model.now }
        ensures end { result.end ≡ length model.now }
    {
        Cursor {
            rest: model,
            end: model.len(),
        }
    }

    // Whether no byte is left.
    pub(crate) fn is_at_end(&self) -> bool
        ensures { IsTrue result ↔ (self.now.rest.now ≡ []) }
    {
        self.rest.is_empty()
    }

    // Where the next byte stands in the model.
    pub(crate) fn place(&self) -> usize
        ensures { result ≡ place_of self.now.end self.now.rest.now }
    {
        self.end.saturating_sub(self.rest.len())
    }

    pub(crate) fn byte(&mut self) -> Result<u8, Layout>
        ensures { Steps as_is self.old self.new result (byte_at self.old.end) }
    {
        let Some((first, rest)) = self.rest.split_first() else {
            return Err(Layout { place: self.end });
        };
        self.rest = rest;
        Ok(*first)
    }

    // A number of 16 bits, the high byte first.
    pub(crate) fn number(&mut self) -> Result<u16, Layout>
        ensures { Steps as_is self.old self.new result (number_at self.old.end) }
    {
        let high = self.byte()?;
        let low = self.byte()?;
        Ok(u16::from_be_bytes([high, low]))
    }

    // A text: its length, and as many bytes.
    pub(crate) fn text(&mut self) -> Result<&'a [u8], Layout>
        ensures { Takes self.old self.new result (text_at self.old.end) }
    {
        let count = self.number()?;
        let Some((taken, rest)) = self.rest.split_at_checked(usize::from(count)) else {
            return Err(Layout { place: self.end });
        };
        self.rest = rest;
        Ok(taken)
    }

    // A record's map, in which only the bits of its fields have a name.
    pub(crate) fn fields<F: Field>(&mut self) -> Result<Fields<F>, Layout>
        ensures { Steps map_of self.old self.new result (fields_at self.old.end F.LIMIT) }
    {
        let place = self.place();
        let map = self.number()?;
        if map < F::LIMIT {
            Ok(Fields::of(map))
        } else {
            Err(Layout { place })
        }
    }

    // The map of a vararg or kwarg, which has no default.
    pub(crate) fn star_fields(&mut self) -> Result<Fields<ValueField>, Layout>
        ensures { Steps map_of self.old self.new result (star_fields_at self.old.end) }
    {
        let place = self.place();
        let fields: Fields<ValueField> = self.fields()?;
        if fields.has(ValueField::Value) {
            Err(Layout { place })
        } else {
            Ok(fields)
        }
    }

    // The count of a list field that stands: at least one.
    pub(crate) fn count(&mut self) -> Result<u16, Layout>
        ensures { Steps as_is self.old self.new result (count_at self.old.end) }
    {
        let place = self.place();
        let count = self.number()?;
        if count == 0 {
            Err(Layout { place })
        } else {
            Ok(count)
        }
    }

    // How the next expression begins. The tags stand as numbers: an enum of them would name each kind once more, only to be
    // read into an Expression at once.
    pub(crate) fn next(&mut self) -> Result<Expression<'a>, Layout>
        ensures { Steps head_of self.old self.new result (head_at self.old.end) }
    {
        let place = self.place();
        match self.byte()? {
            0 => Ok(Expression::None),
            1 => Ok(Expression::False),
            2 => Ok(Expression::True),
            3 => Ok(Expression::Int(self.text()?)),
            4 => Ok(Expression::Float(self.text()?)),
            5 => Ok(Expression::Str(self.text()?)),
            6 => Ok(Expression::Ellipsis),
            7 => Ok(Expression::Name(self.text()?)),
            8 => Ok(Expression::Attribute),
            9 => Ok(Expression::BinOp),
            10 => Ok(Expression::Tuple(self.number()?)),
            11 => Ok(Expression::List(self.number()?)),
            12 => Ok(Expression::Subscript),
            _ => Err(Layout { place }),
        }
    }
}
