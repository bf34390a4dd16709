// How texts end that are read as certificates.
use sk_cert::{CertFault, read, write};
use std::alloc::{AllocError, Global};

/// How a text ends.
pub fn end_of(alloc: Global, text: &[u8]) -> Result<String, AllocError> {
    if text.len() > 67_108_864 {
        return format!(in alloc; "too long");
    }
    match read(alloc, text) {
        Ok(certificate) => {
            let again = write(alloc, &certificate)?;
            if again.is(text) {
                return format!(in alloc; "reads");
            }
            format!(in alloc; "writes another text")
        }
        Err(CertFault::NoForm { line }) => format!(in alloc; "NoForm {line}"),
        Err(CertFault::Version { line }) => format!(in alloc; "Version {line}"),
        Err(CertFault::Memory) => format!(in alloc; "Memory"),
    }
}
