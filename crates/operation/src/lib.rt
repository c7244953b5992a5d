// An action as the rules see it, by the guard of the variable that it accesses.

#![tactic(auto)]

ghost use Rattle.std.specs.Prelude.{◌≡◌, ◌-◌, ◌<◌};
ghost use Rattle.frame.specs.Limits.{variable_count};
ghost use Rattle.frame.specs.Frame.{ObjectInRange};
ghost use Rattle.operation.specs.Operation.{operation_of, access_of, at_level};

use frame::{Action, Lock, VARIABLES, Variable};
use guards::Guard;
use soundness::Level;

// An action as the rules see it: an access is one under its guard, an unprotected one, or one whose guard is inferred; an inner acquire or
// release is as an access under its lock.
#[derive(Clone, Copy)]
pub enum Operation {
    Acquire(Lock),
    Release(Lock),
    Protected(Lock),
    Unprotected,
    Inferred(Variable),
    Begin,
    End,
}

fn access_of(guards: &[u8; VARIABLES], variable: Variable) -> Operation
    requires { variable.0 < variable_count }
    ensures { result ≡ access_of guards.now variable }
{
    match guards::guard_of(guards[variable.0 as usize]) {
        Guard::Locked(lock) => Operation::Protected(lock),
        Guard::Unprotected => Operation::Unprotected,
        Guard::Inferred => Operation::Inferred(variable),
    }
}

// An acquire or a release of a lock.
fn at_level(level: Level, operation: Operation, lock: Lock) -> Operation
    ensures { result ≡ at_level level operation lock }
{
    match level {
        Level::Outer => operation,
        Level::Inner => Operation::Protected(lock),
    }
}

pub fn operation_of(guards: &[u8; VARIABLES], level: Level, action: Action) -> Operation
    requires { ObjectInRange action }
    ensures { result ≡ operation_of guards.now level action }
{
    match action {
        Action::Acquire(lock) => at_level(level, Operation::Acquire(lock), lock),
        Action::Release(lock) => at_level(level, Operation::Release(lock), lock),
        Action::Read(variable) | Action::Write(variable) => access_of(guards, variable),
        Action::Begin => Operation::Begin,
        Action::End => Operation::End,
    }
}
