//! What there is to tell of a certificate that a line `check` does not accept.

use sk_app::{CertFault, Reason};
use sk_base::push_number;
use sk_explain_notes::Told;
use std::alloc::{AllocError, Global};

/// Tells which part of a certificate does not hold, and what that means.
pub fn tell_rejected(told: &mut Told, reason: &Reason) -> Result<(), AllocError> {
    match reason {
        Reason::Values => {
            told.title(&[b"rejected: its line //@ holes does not fill the sketch"])?;
            told.note(&[b"it wants one value for each hole, each below the size of its hole"])
        }
        Reason::Inputs => {
            told.title(&[
                b"rejected: an input that it lists is none of the sketch, or stands twice",
            ])?;
            told.note(&[b"a line //@ input has the number of an obligation and its arguments"])
        }
        Reason::Upper => {
            told.title(&[b"rejected: the log of a part //@ upper does not refute its formula"])?;
            told.note(&[b"or there are not as many such parts as harnesses and references"])?;
            told.note(&[b"so it is not shown that the completion meets them within the value"])
        }
        Reason::Lower => {
            told.title(&[b"rejected: the log of the part //@ lower does not refute its formula"])?;
            told.note(&[b"so it is not shown that no completion costs less, or that there is none"])
        }
        Reason::Text => {
            told.title(&[b"rejected: its program is not the sketch with its hole values"])?;
            told.note(&[b"the sketch before the line //%% may be another than the one completed"])
        }
        Reason::Formula { own: _ } => {
            told.title(&[b"rejected: a formula of it is not the one that its part asks for"])?;
            told.note(&[b"the sketch or an option may be another than where it was made"])
        }
    }
}

/// Tells where a text departs from the form of a certificate.
pub fn tell_not_certificate(
    alloc: Global,
    told: &mut Told,
    fault: CertFault,
) -> Result<(), AllocError> {
    match fault {
        CertFault::NoForm { line } => {
            let number = spelt(alloc, line)?;
            told.title(&[
                b"line ",
                number.as_slice(),
                b" departs from the form of a certificate",
            ])?;
            told.note(&[
                b"lines are counted behind the line //%%, where what synth --cert wrote stands",
            ])
        }
        CertFault::Version { line } => {
            let number = spelt(alloc, line)?;
            told.title(&[
                b"line ",
                number.as_slice(),
                b" is of a version that is not known",
            ])?;
            told.note(&[b"versions 1 and 2 are known"])
        }
        CertFault::Memory => Ok(()),
    }
}

// A number as it is written.
fn spelt(alloc: Global, number: u32) -> Result<Vec<u8>, AllocError> {
    let mut out = Vec::new(alloc);
    push_number(&mut out, u64::from(number))?;
    Ok(out)
}
