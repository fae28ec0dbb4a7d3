// Threads with a stack of a known size, whatever the process was given for its first one.
// A stack is mapped whole before its thread starts, so that little memory refuses the start, and never ends a run by a signal; and it takes memory
// only where it is used. docs/PROMISES.md, "The stack", has what the deepest texts need, and the script that measures it.
#![tactic(auto)]

ghost use Rattle.std.specs.Prelude.{◌≡◌, IfOk};

pub use core::thread::Anything;
use core::thread::Stack;
use std::thread::{Promise, PromisedHandle, Scope, SpawnError};

/// The stack that a thread is started with, in bytes: more than four times what the deepest nesting needs.
const STACK: usize = 1 << 21;

/// Starts a thread in a scope. What it hands back keeps the promise.
///
/// # Errors
/// No thread could be made.
pub fn start<'s, E, P: Promise<T> + Drop, F: FnOnce() -> T + Send + Drop + 's, T: Send + Drop + 's>(
    scope: &Scope<'s, E>,
    promise: P,
    task: F,
) -> Result<PromisedHandle<T, P>, SpawnError<F>>
    requires runs { F.pre task }
    requires keeps { (r : T) → F.post task r → P.kept_by promise r }
    ensures ok { IfOk result (λ handle. handle.promise ≡ promise) }
{
    Stack::new()
        .stack_size(STACK)
        .spawn_scoped_with(scope, promise, task)
}
