// A position as a target: `as`, since the clause says that it fits; `try_from` would have a case
// that there is not.
ghost use Rattle.std.specs.Prelude.{◌≡◌, ◌≤◌};
ghost use Rattle.declare.specs.Limits.{most_events};

pub fn target_of(j: usize) -> u16
    requires { j ≤ most_events }
    ensures { result ≡ j }
{
    j as u16
}
