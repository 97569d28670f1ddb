ghost use Rattle.certificate.specs.PrintedText.{PrintedCertLaw, PrintedAgainLaw};

/// Of the texts of a certificate exactly one has the printed form: the printed text.
///
/// So what is printed, read and printed again is the same text. The function does nothing: its contract has these laws.
pub fn printed_cert_laws()
    ensures certs { PrintedCertLaw }
    ensures again { PrintedAgainLaw }
{}
