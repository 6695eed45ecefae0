//! What is true of any two seats of a desk.
ghost use Rattle.std.specs.Prelude.{◌≡◌};
ghost use Rattle.kapi_publishing.specs.Laws.{Agree};

use crate::seat::Seat;

/// Of the lists of steps that two seats of a desk have seen, one begins the other.
pub fn lists_agree(one: &Seat, other: &Seat)
    requires { one.now.desk ≡ other.now.desk }
    ensures { Agree one.now other.now }
{
    one.histories_agree(other);
}
