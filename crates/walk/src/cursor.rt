// A cursor over packed bytes that are known to be laid out, so that every step has an answer: past the end there are
// zeros. It keeps only what is left, and the model's length, by which places are told.
ghost use Rattle.std.specs.Prelude.{◌≡◌, drop, length};
ghost use Rattle.model.specs.Maps.{map_of};
ghost use Rattle.model.specs.Read.{place as place_of};
ghost use Rattle.model.specs.Steps.{as_is, head_of};
ghost use Rattle.walk.specs.Total.{byte as byte_at, number as number_at, text as text_at, count as count_at, head as head_at};
ghost use Rattle.walk.specs.Yields.{Yields, Passes};
ghost use Rattle.walk.specs.Puts.{skip as skip_at, skip_parts as skip_parts_at, skips as skips_at, Bare};

use model::{Expression, Field, Fields};

// The reader's cursor in `model` has the same tags, but its steps fail, and say where. A cursor for both would make these
// steps fail as well, or be a trait over the error: neither is plainer.
#[derive(Clone, Copy)]
pub struct Cursor<'a> {
    pub rest: &'a [u8],
    pub end: usize,
}

impl<'a> Cursor<'a> {
    // The cursor at this offset of the model.
    pub fn at(model: &'a [u8], place: usize) -> Self
        ensures rest { result.rest.now ≡ drop place model.now }
        ensures end { result.end ≡ length model.now }
    {
        let start = place.min(model.len());
        Cursor {
            rest: &model[start..],
            end: model.len(),
        }
    }

    // Where the next byte stands in the model.
    pub fn place(&self) -> usize
        ensures { result ≡ place_of self.now.end self.now.rest.now }
    {
        self.end.saturating_sub(self.rest.len())
    }

    pub fn byte(&mut self) -> u8
        ensures { Yields as_is byte_at self.old self.new result }
    {
        let Some((first, behind)) = self.rest.split_first() else {
            return 0;
        };
        self.rest = behind;
        *first
    }

    // A number of 16 bits, the high byte first.
    pub fn number(&mut self) -> u16
        ensures { Yields as_is number_at self.old self.new result }
    {
        let high = self.byte();
        let low = self.byte();
        u16::from_be_bytes([high, low])
    }

    // A record's map, whatever its bits.
    pub fn fields<F: Field>(&mut self) -> Fields<F>
        ensures { Yields map_of number_at self.old self.new result }
    {
        Fields::of(self.number())
    }

    // A text: its length, and as many bytes, or all that are left.
    pub fn text(&mut self) -> &'a [u8]
        ensures { Yields (λ text. text.now) text_at self.old self.new result }
    {
        let count = self.number();
        let length = usize::from(count).min(self.rest.len());
        let (taken, behind) = self.rest.split_at(length);
        self.rest = behind;
        taken
    }

    // How many items a list field has: none where it does not stand.
    pub fn count(&mut self, stands: bool) -> u16
        ensures { Yields as_is (count_at stands) self.old self.new result }
    {
        if stands { self.number() } else { 0 }
    }

    // How the next expression begins. The tags stand as numbers: an enum of them would name each kind once more, only to be read
    // into an Expression at once.
    pub fn next(&mut self) -> Expression<'a>
        ensures { Yields head_of head_at self.old self.new result }
    {
        match self.byte() {
            0 => Expression::None,
            1 => Expression::False,
            2 => Expression::True,
            3 => Expression::Int(self.text()),
            4 => Expression::Float(self.text()),
            5 => Expression::Str(self.text()),
            6 => Expression::Ellipsis,
            7 => Expression::Name(self.text()),
            8 => Expression::Attribute,
            9 => Expression::BinOp,
            10 => Expression::Tuple(self.number()),
            11 => Expression::List(self.number()),
            12 => Expression::Subscript,
            _ => Expression::None,
        }
    }

    // The text of a Name, which is passed; any other expression is still to be read.
    pub fn bare_name(&mut self, depth: u8) -> Option<&'a [u8]>
        ensures is { Bare result depth self.old.rest.now self.new.rest.now }
        ensures end { self.new.end ≡ self.old.end }
    {
        if depth == 0 {
            return None;
        }
        let mut ahead = *self;
        match ahead.next() {
            Expression::Name(name) => {
                *self = ahead;
                Some(name)
            }
            _ => None,
        }
    }

    // Passes over an expression that may go this deep.
    #[cycle(skips)]
    pub fn skip_expr(&mut self, depth: u8)
        ensures { Passes (skip_at depth) self.old self.new }
    {
        if depth > 0 {
            let head = self.next();
            self.skip_parts(head, depth - 1);
        }
    }

    #[cycle(skips)]
    fn skip_parts(&mut self, head: Expression<'a>, depth: u8)
        ensures { Passes (skip_parts_at (skip_at depth) (head_of head.entry)) self.old self.new }
    {
        match head {
            Expression::Attribute => {
                self.skip_expr(depth);
                self.text();
            }
            Expression::BinOp | Expression::Subscript => {
                self.skip_expr(depth);
                self.skip_expr(depth);
            }
            Expression::Tuple(n) | Expression::List(n) => self.skip_list(n, depth),
            _ => {}
        }
    }

    #[cycle(skips)]
    fn skip_list(&mut self, n: u16, depth: u8)
        ensures { Passes (skips_at (skip_at depth) n) self.old self.new }
    {
        // `times` is for steps that may fail, which these do not.
        for _ in 0..n {
            self.skip_expr(depth);
        }
    }
}
