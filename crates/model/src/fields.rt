// The fields of the records, and which of them stand in one.
ghost use Rattle.std.specs.Prelude.{◌≡◌, ◌==◌, ℕ, true, nat_lt};
ghost use Rattle.model.specs.Read.{bit as bit_of};
ghost use Rattle.model.specs.Fields.{module_value, module_positive, class_value, class_positive, function_value, function_positive, value_value, value_positive};

use std::marker::PhantomData;

// The fields of one kind of record, each by the value of its bit in the record's map.
pub trait Field: Copy + Drop {
    ghost LIMIT: { ℕ };

    ghost value: { Self → ℕ };

    ghost positive: { (f : Self) → nat_lt 0 (value f) ≡ true };

    // The first number above all maps of this record.
    const LIMIT: u16;

    // The value of this field's bit.
    fn value(self) -> u16
        ensures { result ≡ value self };
}

#[derive(Clone, Copy, Debug, PartialEq, Eq)]
pub enum ModuleField {
    Modules = 1,
    Classes = 2,
    Functions = 4,
    Attributes = 8,
}

impl Field for ModuleField {
    ghost LIMIT = { 16 };

    ghost value = { module_value };

    ghost positive = { module_positive };

    const LIMIT: u16 = 16;

    fn value(self) -> u16 {
        self as u16
    }
}

#[derive(Clone, Copy, Debug, PartialEq, Eq)]
pub enum ClassField {
    Bases = 1,
    Methods = 2,
    Attributes = 4,
    Decorators = 8,
    Inner = 16,
}

impl Field for ClassField {
    ghost LIMIT = { 32 };

    ghost value = { class_value };

    ghost positive = { class_positive };

    const LIMIT: u16 = 32;

    fn value(self) -> u16 {
        self as u16
    }
}

#[derive(Clone, Copy, Debug, PartialEq, Eq)]
pub enum FunctionField {
    Decorators = 1,
    Positional = 2,
    Regular = 4,
    Vararg = 8,
    Keyword = 16,
    Kwarg = 32,
    Returns = 64,
}

impl Field for FunctionField {
    ghost LIMIT = { 128 };

    ghost value = { function_value };

    ghost positive = { function_positive };

    const LIMIT: u16 = 128;

    fn value(self) -> u16 {
        self as u16
    }
}

// An attribute's value and an argument's default are the same bit.
#[derive(Clone, Copy, Debug, PartialEq, Eq)]
pub enum ValueField {
    Value = 1,
    Annotation = 2,
}

impl Field for ValueField {
    ghost LIMIT = { 4 };

    ghost value = { value_value };

    ghost positive = { value_positive };

    const LIMIT: u16 = 4;

    fn value(self) -> u16 {
        self as u16
    }
}

// A record's map: which of its fields stand.
#[derive(Clone, Copy, Debug, PartialEq, Eq)]
pub struct Fields<F> {
    map: u16,
    of: PhantomData<F>,
}

impl<F: Field> Fields<F> {
    ghost use Rattle.model.specs.Maps.{map_of};

    // The fields that stand in this map.
    pub fn of(map: u16) -> Self
        ensures { map_of result ≡ map }
    {
        Fields {
            map,
            of: PhantomData,
        }
    }

    // The map itself, for a caller that wants the number.
    pub fn map(&self) -> u16
        ensures { result ≡ map_of self.now }
    {
        let Fields { map, .. } = self;
        *map
    }

    // Whether this field stands: by division, as the format's definition of a bit has it.
    pub fn has(&self, field: F) -> bool
        ensures { result ≡ bit_of (map_of self.now) (F.value field) }
    {
        self.map / field.value() % 2 == 1
    }

    // Whether no field stands.
    pub fn is_empty(&self) -> bool
        ensures { result ≡ (map_of self.now == 0) }
    {
        self.map == 0
    }
}
