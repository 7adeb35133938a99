// A step that is run so many times.
ghost use Rattle.model.specs.Repeats.{Calls, Repeats};

// Runs the step n times, or to the first that fails.
pub fn times<S, E, F: Fn(&mut S) -> Result<(), E>>(n: u16, state: &mut S, step: F) -> Result<(), E>
    requires { F.IsAlwaysCallable step }
    ensures { Repeats (Calls F.Fn step) n state.old result state.new }
{
    for _ in 0..n {
        step(state)?;
    }
    Ok(())
}
