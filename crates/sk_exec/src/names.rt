//! The function that a line names.

ghost use Rattle.std.specs.Prelude.{◌≡◌, ◌+◌, not, IfOk};
ghost use Rattle.std.specs.Str.{bytes_eq};
ghost use Rattle.sk_model.specs.Parts.{one_if};
ghost use Rattle.sk_model.specs.Expand.{is_generator};
ghost use Rattle.sk_exec.specs.Direct.{IsCalleeAt};

use sk_base::Name;
use sk_limits::behind;
use sk_prog::{Fun, FunId, FunKind, Prog};
use std::alloc::AllocError;

/// A function of a program.
#[derive(Debug, Drop, Clone, Copy, PartialEq, Eq)]
pub struct Callee {
    /// Its place among the functions of the program.
    pub place: usize,
    /// Its number in the expansion and in each filling.
    pub id: FunId,
}

fn is_named(fun: &Fun, name: &Name) -> bool
    ensures { result ≡ bytes_eq fun.now.name name.now }
{
    fun.name.as_bytes() == name.as_bytes()
}

/// Whether a function is no generator.
pub fn is_ordinary(fun: &Fun) -> bool
    ensures { result ≡ not (is_generator fun.now.kind) }
{
    match fun.kind {
        FunKind::Plain => true,
        FunKind::Harness => true,
        FunKind::Generator => false,
    }
}

/// The number behind that of a function, which is counted where it is ordinary. No memory holds so many functions that
/// they cannot be numbered.
fn after(number: u32, fun: &Fun) -> Result<u32, AllocError>
    ensures { IfOk result (λ next. next ≡ number + one_if (not (is_generator fun.now.kind))) }
{
    if !is_ordinary(fun) {
        return Ok(number);
    }
    let next = behind(number)?;
    Ok(next)
}

/// The first function of this name, where the program has one.
///
/// # Errors
///
/// Where memory is wanting.
pub fn callee_of(prog: &Prog, name: &Name) -> Result<Option<Callee>, AllocError>
    ensures { IfOk result (IsCalleeAt prog.now name.now) }
{
    let mut index = 0u32;
    for (place, fun) in prog.funs.as_slice().iter().enumerate() {
        if is_named(fun, name) {
            let id = FunId { index };
            return Ok(Some(Callee { place, id }));
        }
        index = after(index, fun)?;
    }
    Ok(None)
}
