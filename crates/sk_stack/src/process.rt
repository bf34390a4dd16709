// The stack of the process at hand.
ghost use Rattle.std.specs.Prelude.{◌<◌, IfSome};
ghost use Rattle.sk_stack.specs.Limits.{least_stack};

use crate::limit::short_limit;
use std::fs;
use std::rt::Files;

/// The soft limit of this process's stack, if it is less than a run needs. Where the system does not tell it, there is none.
pub fn short_of_process<R: Files + AllocGlobal>(rt: &R) -> Option<u64>
    ensures { IfSome result (λ limit. limit < least_stack) }
{
    match fs::read(rt, "/proc/self/limits") {
        Ok(text) => short_limit(text.as_slice()),
        Err(_) => None,
    }
}
