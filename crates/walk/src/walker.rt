// A walk over what a file declares that gathers the references in it, in the order of their places.
ghost use Rattle.std.specs.Prelude.{IfOk, OnOk};
ghost use Rattle.model.specs.Maps.{map_of};
ghost use Rattle.model.specs.Steps.{head_of};
ghost use Rattle.model.specs.Tree.{end as no_expr, item as add_expr};
ghost use Rattle.model.specs.Uses.{class_declared};
ghost use Rattle.walk.specs.Total.{expr as expr_at, parts as parts_at, rows as rows_at, exprs as exprs_at, any_expr as any_expr_at, pair as pair_at, attribute as attribute_at, argument as argument_at, any_star as any_star_at, arguments as arguments_at, function as function_at, functions as functions_at, attributes as attributes_at, class_over as class_over_at, one_class as class_at, classes as classes_at};
ghost use Rattle.walk.specs.Puts.{expr_put, exprs_put, each_put, any_put, value_put, annotation_put, pair_put, attribute_put, argument_put, star_put, function_put, class_put, classes_put, function_declared, attribute_declared};
ghost use Rattle.walk.specs.Walks.{Walks, WalksEach, Tells, Noted};

use crate::cursor::Cursor;
use crate::headers::Header;
use model::{
    ClassField, Declared, Expression, Fields, FunctionField, Reference, Use, ValueField, times,
};
use std::alloc::AllocError;

#[derive(Drop)]
pub(crate) struct Walker<'a> {
    pub(crate) at: Cursor<'a>,
    pub(crate) uses: Vec<Use<'a>>,
}

impl<'a> Walker<'a> {
    fn note(&mut self, place: usize, from: &'a [u8], name: &'a [u8]) -> Result<(), AllocError>
        ensures { OnOk result (Noted place from.now name.now self.old self.new) }
    {
        let reference = Reference { from, name };
        self.uses.push(Use { place, reference })?;
        Ok(())
    }

    // A list field: its count, and then as many items, each walked by `item`. The reader's `each` may fail at its count and says
    // where; this one cannot, as its cursor cannot.
    fn each<F: Fn(&mut Self) -> Result<(), AllocError>>(
        &mut self,
        stands: bool,
        item: F,
    ) -> Result<(), AllocError>
        requires { F.IsAlwaysCallable item }
        ensures { OnOk result (WalksEach F.Fn item stands self.old self.new) }
    {
        let n = self.at.count(stands);
        times(n, self, item)
    }

    #[cycle(exprs)]
    fn walk_expr(&mut self, depth: u8) -> Result<(), AllocError>
        ensures { OnOk result (Walks expr_put (expr_at self.old.at.end depth) self.old self.new) }
    {
        if depth == 0 {
            return Ok(());
        }
        let place = self.at.place();
        let head = self.at.next();
        self.walk_parts(place, head, depth - 1)
    }

    // A Name refers to builtins, and an Attribute of a Name to what the Name says.
    #[cycle(exprs)]
    fn walk_parts(
        &mut self,
        place: usize,
        head: Expression<'a>,
        depth: u8,
    ) -> Result<(), AllocError>
        ensures { OnOk result (Walks expr_put (parts_at (expr_at self.old.at.end depth) place (head_of head.entry)) self.old self.new) }
    {
        match head {
            Expression::Name(name) => self.note(place, b"builtins", name),
            Expression::Attribute => match self.at.bare_name(depth) {
                Some(from) => {
                    let name = self.at.text();
                    self.note(place, from, name)
                }
                None => {
                    self.walk_expr(depth)?;
                    self.at.text();
                    Ok(())
                }
            },
            Expression::BinOp | Expression::Subscript => {
                self.walk_expr(depth)?;
                self.walk_expr(depth)
            }
            Expression::Tuple(n) | Expression::List(n) => self.walk_list(n, depth),
            _ => Ok(()),
        }
    }

    // The next n expressions.
    #[cycle(exprs)]
    fn walk_list(&mut self, n: u16, depth: u8) -> Result<(), AllocError>
        ensures { OnOk result (Walks exprs_put (rows_at no_expr add_expr (expr_at self.old.at.end depth) n) self.old self.new) }
    {
        times(
            n,
            self,
            |walker|
                ensures { OnOk result (Walks expr_put (expr_at walker.old.at.end depth) walker.old walker.new) }
            { walker.walk_expr(depth) },
        )
    }

    // Flag and depth are two parameters: the flag is another at each call and the depth another at each level, so a struct of them
    // would be built for every call.
    // A list field of expressions: bases or decorators.
    fn walk_exprs(&mut self, stands: bool, depth: u8) -> Result<(), AllocError>
        ensures { OnOk result (Walks exprs_put (exprs_at self.old.at.end depth stands) self.old self.new) }
    {
        self.each(stands, |walker| walker.walk_expr(depth))
    }

    // A value or a default, which is not collected.
    fn walk_value(&mut self, stands: bool, depth: u8) -> Result<(), AllocError>
        ensures { OnOk result (Walks value_put (any_expr_at self.old.at.end depth stands) self.old self.new) }
    {
        if stands {
            self.at.skip_expr(depth);
        }
        Ok(())
    }

    // An annotation, or what a function returns.
    fn walk_annotation(&mut self, stands: bool, depth: u8) -> Result<(), AllocError>
        ensures { OnOk result (Walks annotation_put (any_expr_at self.old.at.end depth stands) self.old self.new) }
    {
        if stands {
            return self.walk_expr(depth);
        }
        Ok(())
    }

    // The value and the annotation of an attribute, or the default and the annotation of an argument.
    fn walk_pair(&mut self, fields: Fields<ValueField>, depth: u8) -> Result<(), AllocError>
        ensures { OnOk result (Walks pair_put (pair_at self.old.at.end depth (map_of fields)) self.old self.new) }
    {
        self.walk_value(fields.has(ValueField::Value), depth)?;
        self.walk_annotation(fields.has(ValueField::Annotation), depth)
    }

    fn walk_argument(&mut self, depth: u8) -> Result<(), AllocError>
        ensures { OnOk result (Walks argument_put (argument_at self.old.at.end depth) self.old self.new) }
    {
        let fields = self.at.header().fields;
        self.walk_pair(fields, depth)
    }

    fn walk_arguments(&mut self, stands: bool, depth: u8) -> Result<(), AllocError>
        ensures { OnOk result (Walks (each_put argument_put) (arguments_at self.old.at.end depth stands) self.old self.new) }
    {
        self.each(stands, |walker| walker.walk_argument(depth))
    }

    // A vararg or kwarg: it has no default.
    fn walk_star(&mut self, there: bool, depth: u8) -> Result<(), AllocError>
        ensures { OnOk result (Walks (any_put star_put) (any_star_at self.old.at.end depth there) self.old self.new) }
    {
        if !there {
            return Ok(());
        }
        let fields = self.at.header().fields;
        self.walk_annotation(fields.has(ValueField::Annotation), depth)
    }

    // A function or a method.
    pub(crate) fn walk_function(&mut self, depth: u8) -> Result<Declared<'a>, AllocError>
        ensures { IfOk result (λ v. Tells function_put function_declared (function_at self.old.at.end depth) self.old self.new v) }
    {
        let place = self.at.place();
        let Header { fields, name } = self.at.header();
        self.walk_exprs(fields.has(FunctionField::Decorators), depth)?;
        self.walk_arguments(fields.has(FunctionField::Positional), depth)?;
        self.walk_arguments(fields.has(FunctionField::Regular), depth)?;
        self.walk_star(fields.has(FunctionField::Vararg), depth)?;
        self.walk_arguments(fields.has(FunctionField::Keyword), depth)?;
        self.walk_star(fields.has(FunctionField::Kwarg), depth)?;
        self.walk_annotation(fields.has(FunctionField::Returns), depth)?;
        Ok(Declared { place, name })
    }

    // An attribute of a class or a module.
    pub(crate) fn walk_attribute(&mut self, depth: u8) -> Result<Declared<'a>, AllocError>
        ensures { IfOk result (λ v. Tells attribute_put attribute_declared (attribute_at self.old.at.end depth) self.old self.new v) }
    {
        let place = self.at.place();
        let Header { fields, name } = self.at.header();
        self.walk_pair(fields, depth)?;
        Ok(Declared { place, name })
    }

    fn walk_methods(&mut self, stands: bool, depth: u8) -> Result<(), AllocError>
        ensures { OnOk result (Walks (each_put function_put) (functions_at self.old.at.end depth stands) self.old self.new) }
    {
        self.each(stands, |walker| {
            walker.walk_function(depth)?;
            Ok(())
        })
    }

    fn walk_attributes(&mut self, stands: bool, depth: u8) -> Result<(), AllocError>
        ensures { OnOk result (Walks (each_put attribute_put) (attributes_at self.old.at.end depth stands) self.old self.new) }
    {
        self.each(stands, |walker| {
            walker.walk_attribute(depth)?;
            Ok(())
        })
    }

    // A class, which is empty where the tree may go no deeper.
    #[cycle(classes)]
    pub(crate) fn walk_class(&mut self, depth: u8) -> Result<Declared<'a>, AllocError>
        ensures { IfOk result (λ v. Tells class_put class_declared (class_at self.old.at.end depth) self.old self.new v) }
    {
        if depth == 0 {
            let place = self.at.place();
            return Ok(Declared { place, name: b"" });
        }
        self.walk_class_record(depth - 1)
    }

    // A class whose parts may go this deep.
    #[cycle(classes)]
    fn walk_class_record(&mut self, depth: u8) -> Result<Declared<'a>, AllocError>
        ensures { IfOk result (λ v. Tells class_put class_declared (class_over_at self.old.at.end depth (class_at self.old.at.end depth)) self.old self.new v) }
    {
        let place = self.at.place();
        let Header { fields, name } = self.at.header();
        self.walk_exprs(fields.has(ClassField::Bases), depth)?;
        self.walk_methods(fields.has(ClassField::Methods), depth)?;
        self.walk_attributes(fields.has(ClassField::Attributes), depth)?;
        self.walk_exprs(fields.has(ClassField::Decorators), depth)?;
        self.walk_classes(fields.has(ClassField::Inner), depth)?;
        Ok(Declared { place, name })
    }

    #[cycle(classes)]
    fn walk_classes(&mut self, stands: bool, depth: u8) -> Result<(), AllocError>
        ensures { OnOk result (Walks classes_put (classes_at self.old.at.end depth stands) self.old self.new) }
    {
        self.each(
            stands,
            |walker|
                ensures { OnOk result (Walks class_put (class_at walker.old.at.end depth) walker.old walker.new) }
            {
                walker.walk_class(depth)?;
                Ok(())
            },
        )
    }
}
