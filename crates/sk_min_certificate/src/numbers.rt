//! Each number of a certificate in memory has 64 bits. What follows reads them, so that this is known.

ghost use Rattle.std.specs.Prelude.{◌≡◌, ◌<◌, ◌^◌, All, IfSome, length};
ghost use Rattle.sk_base.specs.Word.{IsWord};
ghost use Rattle.sk_cert.specs.Certificates.{Has64Bits, HasSmallValues, IsSmallInput, IsSmallProof};

use sk_base::List;
use sk_cert::{CertInput, Certificate, Proof};
use sk_model::Choice;

fn is_word(number: i64)
    ensures { IsWord 64 number }
{}

fn are_words(numbers: &[i64])
    ensures { All (IsWord 64) numbers.now }
{
    for number in numbers {
        is_word(*number);
    }
}

fn all_are_words(args: &[List<i64>])
    ensures { All (All (IsWord 64)) args.now }
{
    for numbers in args {
        are_words(numbers.as_slice());
    }
}

fn input_is_small(input: &CertInput)
    ensures { IsSmallInput input.now }
{
    let _obligation = input.obligation;
    all_are_words(input.args.as_slice());
}

fn inputs_are_small(inputs: &[CertInput])
    ensures { All IsSmallInput inputs.now }
{
    for input in inputs {
        input_is_small(input);
    }
}

fn proof_is_small(proof: &Proof)
    ensures { IsSmallProof proof.now }
{
    let _vars = proof.formula.clauses.vars();
    let _clauses = proof.formula.clauses.len();
    let _log = proof.log.len();
}

fn proofs_are_small(proofs: &[Proof])
    ensures { All IsSmallProof proofs.now }
{
    for proof in proofs {
        proof_is_small(proof);
    }
}

fn lower_is_small(lower: &Option<Proof>)
    ensures { IfSome lower.now IsSmallProof }
{
    if let Some(proof) = lower {
        proof_is_small(proof);
    }
}

fn values_are_small(values: &[u64])
    ensures { All (λ n. n < 2 ^ 64) values.now }
{}

fn choice_is_small(choice: &Option<Choice>)
    ensures { HasSmallValues choice.now }
{
    if let Some(choice) = choice {
        values_are_small(choice.values.as_slice());
    }
}

/// Each number of a certificate has 64 bits.
pub(crate) fn numbers_are_small(certificate: &Certificate)
    ensures { Has64Bits certificate.now }
{
    let _value = certificate.value;
    let _inputs = certificate.inputs.len();
    let _upper = certificate.upper.len();
    choice_is_small(&certificate.choice);
    inputs_are_small(certificate.inputs.as_slice());
    proofs_are_small(certificate.upper.as_slice());
    lower_is_small(&certificate.lower);
}
