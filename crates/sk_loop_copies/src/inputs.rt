//! Copies of choices and of inputs.

ghost use Rattle.std.specs.Prelude.{◌≡◌, IfOk};

use sk_base::List;
use sk_model::{Choice, Input};
use sk_prog::Value;
use std::alloc::{AllocError, Global};

/// A value as this one.
#[cycle(copy)]
pub fn copy_value(alloc: Global, value: &Value) -> Result<Value, AllocError>
    ensures { IfOk result (λ copy. copy ≡ value.now) }
{
    match value {
        Value::Bit(bit) => Ok(Value::Bit(*bit)),
        Value::Int(int) => Ok(Value::Int(*int)),
        Value::Null => Ok(Value::Null),
        Value::Place(place) => Ok(Value::Place(*place)),
        Value::Array(values) => {
            let copies = copy_values(alloc, values.as_slice())?;
            Ok(Value::Array(copies))
        }
    }
}

#[cycle(copy)]
fn copy_values(alloc: Global, values: &[Value]) -> Result<List<Value>, AllocError>
    ensures { IfOk result (λ copies. copies ≡ values.now) }
{
    let mut copies = List::new(alloc);
    for value in values {
        let copy = copy_value(alloc, value)?;
        copies.push(copy)?;
    }
    Ok(copies)
}

/// An input as this one.
pub fn copy_input(alloc: Global, input: &Input) -> Result<Input, AllocError>
    ensures { IfOk result (λ copy. copy ≡ input.now) }
{
    let args = copy_values(alloc, input.args.as_slice())?;
    let obligation = input.obligation;
    Ok(Input { obligation, args })
}

/// A choice as this one.
pub fn copy_choice(alloc: Global, choice: &Choice) -> Result<Choice, AllocError>
    ensures { IfOk result (λ copy. copy ≡ choice.now) }
{
    let values = List::from_slice(alloc, choice.values.as_slice())?;
    Ok(Choice { values })
}
