// What a pass over the model finds against the rules that each item meets or breaks by itself: for each rule the least
// place at which it shows.
ghost use Rattle.std.specs.Prelude.{◌≡◌, cond};
ghost use Rattle.model.specs.Audit.{earlier, note_name, note_value, note_empty};

use crate::places::sooner;

#[derive(Clone, Copy, Debug, PartialEq, Eq)]
pub struct Findings {
    pub names: Option<usize>,
    pub values: Option<usize>,
    pub empty: Option<usize>,
}

// Notes a place at which a rule is kept or broken: the least of those that break it is kept.
fn note(least: &mut Option<usize>, place: usize, kept: bool)
    ensures { least.new ≡ cond kept least.old (earlier least.old place) }
{
    if !kept {
        *least = sooner(*least, Some(place));
    }
}

impl Findings {
    pub(crate) fn name(&mut self, place: usize, kept: bool)
        ensures { self.new ≡ note_name place kept self.old }
    {
        note(&mut self.names, place, kept);
    }

    pub(crate) fn value(&mut self, place: usize, kept: bool)
        ensures { self.new ≡ note_value place kept self.old }
    {
        note(&mut self.values, place, kept);
    }

    pub(crate) fn attribute(&mut self, place: usize, kept: bool)
        ensures { self.new ≡ note_empty place kept self.old }
    {
        note(&mut self.empty, place, kept);
    }
}
