//! Laws of scripts, each the clause of a function that does nothing.
ghost use Rattle.std.specs.Prelude.{◌≡◌, Bool};
ghost use Rattle.kapi_core.specs.Machine.{Machine, after};
ghost use Rattle.kapi_script.specs.Gains.{made_by};
ghost use Rattle.kapi_script.specs.Scripts.{Line, after_line};

/// A script is answered by a machine that makes the events of its lines, but for those at which an allocation failed.
pub fn lines_make_events()
    ensures { (l : Line) (refused : Bool) (m : Machine) → after_line l refused m ≡ after m (made_by l refused) }
{}
