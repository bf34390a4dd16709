// Reading a certificate, and where a text departs from the form.
ghost use Rattle.std.specs.Prelude.{◌≡◌, ◌+◌, ◌-◌, ◌≤◌, ◌↔◌, length, take, drop, true, IsTrue, IfOk, Err};
ghost use Rattle.std.specs.Result.{IfErr};
ghost use Rattle.sk_cert.specs.Certificates.{IsCertificate};
ghost use Rattle.sk_cert.specs.Departing.{IsFault, Tells, IsOtherVersion, line_feeds};
ghost use Rattle.sk_cert.specs.Readers.{whole};
ghost use Rattle.sk_cert.specs.Steps.{first_line, is_other_number, is_other_version};

use crate::certificate::Certificate;
use crate::fault::CertFault;
use crate::lines::Halt;
use crate::parse::{before, is_numeral};
use crate::reader::line_end;
use crate::sections::whole;
use std::alloc::Global;

// The first line, without its line feed.
fn first_line(text: &[u8]) -> &[u8]
    ensures { result.now ≡ first_line text.now }
{
    match line_end(text) {
        None => text,
        Some(end) => before(text, end),
    }
}

// Whether a word is a number in digits, and neither 1 nor 2.
fn is_other_number(word: &[u8]) -> bool
    ensures { result ≡ is_other_number word.now }
{
    is_numeral(word) && word != b"1".as_slice() && word != b"2".as_slice()
}

// Whether a line is that of another version.
#[tactic(auto, unfolding(crate::specs::Steps::is_other_version))]
fn is_other_version(line: &[u8]) -> bool
    ensures { result ≡ is_other_version line.now }
{
    let Some(number) = line.strip_prefix(b"//@ certificate ") else {
        return false;
    };
    is_other_number(number)
}

// How many line feeds a text has.
fn line_feeds(text: &[u8]) -> u32
    requires { length text.now ≤ 67108864 }
    ensures { result ≡ line_feeds text.now }
{
    let mut count: u32 = 0;
    for b in text {
        if *b == b'\n' {
            count += 1;
        }
    }
    count
}

// The fault of a text in which so many bytes are left from the line on that departs.
#[tactic(auto, using(crate::proofs::Placed::left_within))]
fn fault_of(text: &[u8], left: usize) -> CertFault
    requires size { length text.now ≤ 67108864 }
    requires departs { whole text.now ≡ Err left }
    ensures { IsFault text.now result }
{
    let (front, rest) = text.split_at(text.len() - left);
    let line = line_feeds(front) + 1;
    if is_other_version(first_line(rest)) {
        return CertFault::Version { line };
    }
    CertFault::NoForm { line }
}

/// Reads the certificate that a text is. Where it is none, the fault has the number of the first line, from 1, that
/// departs from the form: one past the last where the text ends too early. `Version` comes exactly where that line is
/// `//@ certificate` with a number in digits that is neither 1 nor 2.
pub fn read(alloc: Global, text: &[u8]) -> Result<Certificate, CertFault>
    requires { length text.now ≤ 67108864 }
    ensures certificate { IfOk result (λ c. IsCertificate text.now c) }
    ensures fault { IfErr result (Tells text.now) }
{
    match whole(alloc, text) {
        Ok(certificate) => Ok(certificate),
        Err(Halt::Departs(left)) => Err(fault_of(text, left)),
        Err(Halt::NoMemory) => Err(CertFault::Memory),
    }
}
