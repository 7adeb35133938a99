// The reader of what a module declares: one pass over the packed bytes that checks the layout and notes what it finds
// against the rules. Depth is judged before the first byte of an expression or a class.
ghost use Rattle.std.specs.Prelude.{◌≡◌};
ghost use Rattle.model.specs.Maps.{map_of};
ghost use Rattle.model.specs.Steps.{Goes, CallsGo, head_of};
ghost use Rattle.model.specs.Audit.{note_head, audit_any, audit_list, audit_parts, audit_expr, laps, audit_name, audit_pair, audit_attribute, audit_argument, audit_star, audit_exprs, audit_arguments, audit_parameters, audit_function, audit_functions, audit_attributes, audit_members, audit_class_over, audit_class, audit_classes, audit_own};

use crate::cursor::Cursor;
use crate::expression::Expression;
use crate::fault::Layout;
use crate::fields::{ClassField, Fields, FunctionField, ModuleField, ValueField};
use crate::findings::Findings;
use crate::repeat::times;

#[derive(Clone, Copy)]
pub(crate) struct Reader<'a> {
    pub(crate) at: Cursor<'a>,
    pub(crate) found: Findings,
}

impl<'a> Reader<'a> {
    // A list field, where it stands; `item` reads one of its items.
    fn each<F: Fn(&mut Self) -> Result<(), Layout>>(
        &mut self,
        stands: bool,
        item: F,
    ) -> Result<(), Layout>
        requires { F.IsAlwaysCallable item }
        ensures { (one : _) → CallsGo (λ x r y. F.post item x r y) one → Goes self.old self.new result (audit_list self.old.at.end (one self.old.at.end) stands) }
    {
        if !stands {
            return Ok(());
        }
        let n = self.at.count()?;
        times(n, self, item)
    }

    // What the head of an expression shows against the rules.
    fn judge(&mut self, place: usize, head: Expression<'a>)
        ensures found { self.new.found ≡ note_head place (head_of head.entry) self.old.found }
        ensures at { self.new.at ≡ self.old.at }
    {
        match head {
            Expression::Int(s) => self.found.value(place, text::is_int(s)),
            Expression::Float(s) => self.found.value(place, text::is_float(s)),
            Expression::Str(s) => self.found.value(place, text::is_utf8(s)),
            Expression::Name(s) => self.found.name(place, text::is_dotted_name(s)),
            _ => {}
        }
    }

    #[cycle(expression_inside_list)]
    fn expression(&mut self, depth: u8) -> Result<(), Layout>
        ensures { Goes self.old self.new result (audit_expr self.old.at.end depth) }
    {
        let place = self.at.place();
        if depth == 0 {
            return Err(Layout { place });
        }
        let head = self.at.next()?;
        self.judge(place, head);
        self.inside(place, head, depth - 1)
    }

    // The parts of an expression that begins by this head.
    #[cycle(expression_inside_list)]
    fn inside(&mut self, place: usize, head: Expression<'a>, depth: u8) -> Result<(), Layout>
        ensures { Goes self.old self.new result (audit_parts self.old.at.end (audit_expr self.old.at.end depth) place (head_of head.entry)) }
    {
        match head {
            Expression::Attribute => {
                self.expression(depth)?;
                let name = self.at.text()?;
                self.found.name(place, text::is_dotted_name(name));
                Ok(())
            }
            Expression::BinOp | Expression::Subscript => {
                self.expression(depth)?;
                self.expression(depth)
            }
            Expression::Tuple(n) | Expression::List(n) => self.list(n, depth),
            _ => Ok(()),
        }
    }

    // The next n expressions.
    #[cycle(expression_inside_list)]
    fn list(&mut self, n: u16, depth: u8) -> Result<(), Layout>
        ensures { Goes self.old self.new result (laps (audit_expr self.old.at.end depth) n) }
    {
        times(
            n,
            self,
            |reader|
                ensures { Goes reader.entry.now reader.exit.now result (audit_expr reader.entry.now.at.end depth) }
            { reader.expression(depth) },
        )
    }

    // Flag and depth are two parameters: the flag is another at each call and the depth another at each level, so a struct of them
    // would be built for every call.
    fn optional(&mut self, stands: bool, depth: u8) -> Result<(), Layout>
        ensures { Goes self.old self.new result (audit_any (audit_expr self.old.at.end depth) stands) }
    {
        if stands {
            self.expression(depth)
        } else {
            Ok(())
        }
    }

    // A list field of expressions, where it stands.
    fn expressions(&mut self, stands: bool, depth: u8) -> Result<(), Layout>
        ensures { Goes self.old self.new result (audit_exprs self.old.at.end depth stands) }
    {
        self.each(stands, |reader| reader.expression(depth))
    }

    // The name of the record at this place.
    fn name(&mut self, place: usize) -> Result<(), Layout>
        ensures { Goes self.old self.new result (audit_name self.old.at.end place) }
    {
        let name = self.at.text()?;
        self.found.name(place, text::is_identifier(name));
        Ok(())
    }

    // The value and the annotation of an attribute, or the default and the annotation of an argument.
    fn pair(&mut self, fields: Fields<ValueField>, depth: u8) -> Result<(), Layout>
        ensures { Goes self.old self.new result (audit_pair self.old.at.end depth (map_of fields)) }
    {
        self.optional(fields.has(ValueField::Value), depth)?;
        self.optional(fields.has(ValueField::Annotation), depth)
    }

    // An attribute; one whose map has no bit has neither a value nor an annotation.
    fn attribute(&mut self, depth: u8) -> Result<(), Layout>
        ensures { Goes self.old self.new result (audit_attribute self.old.at.end depth) }
    {
        let place = self.at.place();
        let fields: Fields<ValueField> = self.at.fields()?;
        self.name(place)?;
        self.found.attribute(place, !fields.is_empty());
        self.pair(fields, depth)
    }

    // An argument before or behind the star.
    fn argument(&mut self, depth: u8) -> Result<(), Layout>
        ensures { Goes self.old self.new result (audit_argument self.old.at.end depth) }
    {
        let place = self.at.place();
        let fields: Fields<ValueField> = self.at.fields()?;
        self.name(place)?;
        self.pair(fields, depth)
    }

    // A vararg or kwarg, where it stands: it has no default.
    fn star(&mut self, stands: bool, depth: u8) -> Result<(), Layout>
        ensures { Goes self.old self.new result (audit_any (audit_star self.old.at.end depth) stands) }
    {
        if !stands {
            return Ok(());
        }
        let place = self.at.place();
        let fields = self.at.star_fields()?;
        self.name(place)?;
        self.optional(fields.has(ValueField::Annotation), depth)
    }

    // A list field of arguments, where it stands.
    fn arguments(&mut self, stands: bool, depth: u8) -> Result<(), Layout>
        ensures { Goes self.old self.new result (audit_arguments self.old.at.end depth stands) }
    {
        self.each(stands, |reader| reader.argument(depth))
    }

    // A function's parameters and what it returns.
    fn parameters(&mut self, fields: Fields<FunctionField>, depth: u8) -> Result<(), Layout>
        ensures { Goes self.old self.new result (audit_parameters self.old.at.end depth (map_of fields)) }
    {
        self.arguments(fields.has(FunctionField::Positional), depth)?;
        self.arguments(fields.has(FunctionField::Regular), depth)?;
        self.star(fields.has(FunctionField::Vararg), depth)?;
        self.arguments(fields.has(FunctionField::Keyword), depth)?;
        self.star(fields.has(FunctionField::Kwarg), depth)?;
        self.optional(fields.has(FunctionField::Returns), depth)
    }

    // A function or a method.
    fn function(&mut self, depth: u8) -> Result<(), Layout>
        ensures { Goes self.old self.new result (audit_function self.old.at.end depth) }
    {
        let place = self.at.place();
        let fields: Fields<FunctionField> = self.at.fields()?;
        self.name(place)?;
        self.expressions(fields.has(FunctionField::Decorators), depth)?;
        self.parameters(fields, depth)
    }

    // A list field of functions, where it stands.
    fn functions(&mut self, stands: bool, depth: u8) -> Result<(), Layout>
        ensures { Goes self.old self.new result (audit_functions self.old.at.end depth stands) }
    {
        self.each(stands, |reader| reader.function(depth))
    }

    // A list field of attributes, where it stands.
    fn attributes(&mut self, stands: bool, depth: u8) -> Result<(), Layout>
        ensures { Goes self.old self.new result (audit_attributes self.old.at.end depth stands) }
    {
        self.each(stands, |reader| reader.attribute(depth))
    }

    // What a class holds but its inner classes.
    fn members(&mut self, fields: Fields<ClassField>, depth: u8) -> Result<(), Layout>
        ensures { Goes self.old self.new result (audit_members self.old.at.end depth (map_of fields)) }
    {
        self.expressions(fields.has(ClassField::Bases), depth)?;
        self.functions(fields.has(ClassField::Methods), depth)?;
        self.attributes(fields.has(ClassField::Attributes), depth)?;
        self.expressions(fields.has(ClassField::Decorators), depth)
    }

    // A class.
    #[cycle(class_class_record_classes)]
    fn class(&mut self, depth: u8) -> Result<(), Layout>
        ensures { Goes self.old self.new result (audit_class self.old.at.end depth) }
    {
        if depth == 0 {
            let place = self.at.place();
            return Err(Layout { place });
        }
        self.class_record(depth - 1)
    }

    // A class whose parts may go this deep.
    #[cycle(class_class_record_classes)]
    fn class_record(&mut self, depth: u8) -> Result<(), Layout>
        ensures { Goes self.old self.new result (audit_class_over self.old.at.end depth (audit_class self.old.at.end depth)) }
    {
        let place = self.at.place();
        let fields: Fields<ClassField> = self.at.fields()?;
        self.name(place)?;
        self.members(fields, depth)?;
        self.classes(fields.has(ClassField::Inner), depth)
    }

    // A list field of classes, where it stands.
    #[cycle(class_class_record_classes)]
    fn classes(&mut self, stands: bool, depth: u8) -> Result<(), Layout>
        ensures { Goes self.old self.new result (audit_classes self.old.at.end depth stands) }
    {
        self.each(
            stands,
            |reader|
                ensures { Goes reader.entry.now reader.exit.now result (audit_class reader.entry.now.at.end depth) }
            { reader.class(depth) },
        )
    }

    // A module's own declarations.
    pub(crate) fn own(&mut self, fields: Fields<ModuleField>, depth: u8) -> Result<(), Layout>
        ensures { Goes self.old self.new result (audit_own self.old.at.end depth (map_of fields)) }
    {
        self.classes(fields.has(ModuleField::Classes), depth)?;
        self.functions(fields.has(ModuleField::Functions), depth)?;
        self.attributes(fields.has(ModuleField::Attributes), depth)
    }
}
