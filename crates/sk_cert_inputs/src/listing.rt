//! How a certificate lists an input. A list that is made here is given up where memory is wanting.
ghost use Rattle.std.specs.Prelude.{◌≡◌, ◌≢◌, ◌++◌, [], All, IfOk, OnOk, map};
ghost use Rattle.std.specs.List.{flat_map};
ghost use Rattle.sk_cert.specs.Certificates.{HasScalars};
ghost use Rattle.sk_cert_inputs.specs.Inputs.{as_listed, scalars};

use sk_base::List;
use sk_cert::CertInput;
use sk_limits::never;
use sk_model::Input;
use sk_prog::Value;
use std::alloc::{AllocError, Global};

// The scalars of a value, behind others.
#[cycle(push_scalars)]
fn push_scalars(list: &mut List<i64>, value: &Value) -> Result<(), AllocError>
    ensures { OnOk result (list.new ≡ list.old ++ scalars value.now) }
{
    match value {
        Value::Bit(bit) => {
            list.push(if *bit { 1 } else { 0 })?;
            Ok(())
        }
        Value::Int(n) => {
            list.push(*n)?;
            Ok(())
        }
        Value::Null => Ok(()),
        Value::Place(_) => Ok(()),
        Value::Array(values) => {
            push_all(list, values.as_slice())?;
            Ok(())
        }
    }
}

#[cycle(push_scalars)]
fn push_all(list: &mut List<i64>, values: &[Value]) -> Result<(), AllocError>
    ensures { OnOk result (list.new ≡ list.old ++ flat_map (λ part. part) (map scalars values.now)) }
{
    for value in values {
        push_scalars(list, value)?;
    }
    Ok(())
}

// The scalars of an argument, which in a typed program has some.
fn scalars_of(alloc: Global, value: &Value) -> Result<List<i64>, AllocError>
    ensures are { IfOk result (λ list. list ≡ scalars value.now) }
    ensures some { IfOk result (λ list. list ≢ []) }
{
    let mut list = List::new(alloc);
    push_scalars(&mut list, value)?;
    if list.is_empty() {
        return Err(never());
    }
    Ok(list)
}

fn args_of(alloc: Global, values: &[Value]) -> Result<List<List<i64>>, AllocError>
    ensures are { IfOk result (λ args. args ≡ map scalars values.now) }
    ensures some { IfOk result (λ args. All (λ scalars. scalars ≢ []) args) }
{
    let mut args = List::new(alloc);
    for value in values {
        let scalars = scalars_of(alloc, value)?;
        args.push(scalars)?;
    }
    Ok(args)
}

/// How a certificate lists an input. Each argument of a typed program has a scalar.
pub fn listed(alloc: Global, input: &Input) -> Result<CertInput, AllocError>
    ensures is { IfOk result (λ c. c ≡ as_listed input.now) }
    ensures scalars { IfOk result (λ c. HasScalars c) }
{
    let args = args_of(alloc, input.args.as_slice())?;
    Ok(CertInput {
        obligation: u64::from(input.obligation),
        args,
    })
}
