ghost use Rattle.std.specs.Prelude.{◌≡◌, ◌⊎◌, ℕ, List};
ghost use Rattle.sk_cert.specs.declared.certificate.Certificate.{Certificate};
ghost use Rattle.sk_cert.specs.Certificates.{IsCertificate};
ghost use Rattle.sk_cert.specs.Departing.{Departs};

/// A law, with nothing to run: a text is that of one certificate at most, and departs from the form in one place at
/// most; and each text is that of a certificate or departs.
pub fn certificates_are_unique()
    ensures certificates { (text : List ℕ) (c d : Certificate) → IsCertificate text c → IsCertificate text d → c ≡ d }
    ensures departures { (text a x b y : List ℕ) → Departs text a x → Departs text b y → a ≡ b }
    ensures whole { (text : List ℕ) → ((c : Certificate) × IsCertificate text c) ⊎ ((front left : List ℕ) × Departs text front left) }
{}
