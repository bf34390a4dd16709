//! Texts of certificates and of none, each computed by the check.
ghost use Rattle.sk_cert.specs.Examples.{CertificateOfNothing, CertificateByObligation, CertificateOfVersionOne, CertificateOfNone, TwoLinesBegin, DepartsByZero, DepartsBehindLast, FaultOfZero, FaultOfVersion, LineOfVersionThree, EndOfVersionSeven};

/// Certificates: of the empty sketch; of two obligations with an input and a lower part; of version 1; and that there is
/// no completion.
pub fn texts_of_certificates()
    ensures nothing { CertificateOfNothing }
    ensures obligations { CertificateByObligation }
    ensures first_version { CertificateOfVersionOne }
    ensures none { CertificateOfNone }
{}

/// Two lines with which a certificate begins; where a text departs that has a zero before a digit, and where one that ends
/// too early; and the faults of that zero and of another version.
pub fn departures()
    ensures begins { TwoLinesBegin }
    ensures zero { DepartsByZero }
    ensures behind { DepartsBehindLast }
    ensures fault_of_zero { FaultOfZero }
    ensures fault_of_version { FaultOfVersion }
{}

/// What is left begins with a line of version 3, and is one of version 7 without its line feed.
pub fn lines_of_other_versions()
    ensures three { LineOfVersionThree }
    ensures seven { EndOfVersionSeven }
{}
