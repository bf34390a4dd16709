//! Laws of certificates.
ghost use Rattle.sk_check_laws.specs.Laws.{CertificatesAreRight, RejectedOnce, RejectedIsNotCertified};

/// A certificate is rejected for one part at most, and one of which the first five parts hold for none of them. So each of
/// these reasons is given exactly where it is the reason.
pub fn parts_exclude()
    ensures once { RejectedOnce }
    ensures certified { RejectedIsNotCertified }
{}

/// Where all parts of a certificate hold, it is right. With a choice: its filling meets every harness and reference, its
/// greatest cost is the value, and no filling that meets them costs less. Without one: no filling meets them.
pub fn certificates_are_right()
    ensures { CertificatesAreRight }
{}
