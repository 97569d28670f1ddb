ghost use Rattle.std.specs.Prelude.{◌≡◌, ◌<◌, ◌-◌, ◌^◌, IfOk, IfErr, length};
ghost use Rattle.model_text.specs.PathCounts.{AreCounts};
ghost use Rattle.certificate.specs.Sizes.{SizesFit};
ghost use Rattle.certificate.specs.Draft.{empty_draft};
ghost use Rattle.certificate.specs.Reading.{cert_reading};
ghost use Rattle.certificate.specs.Spelling.{SpellsCert, IsCertRefusal};
ghost use Rattle.certificate.specs.CertFits.{CertFits};

use crate::cert::Cert;
use crate::cert_lines::take_line;
use crate::draft::CertDraft;
use crate::meaning::cert_of;
use crate::sizes::{Sizes, sizes_of};
use line_text::{LineFault, LineReader, ReadError, read_text};
use path_graph::List;
use route_model::{Model, Plan};
use std::alloc::Global;
use std::collections::BTreeMap;

/// What the lines of a certificate say so far, with the sizes of the model and the counts of its graphs' paths.
#[derive(Drop)]
struct CertReader {
    sizes: Sizes,
    draft: CertDraft,
    counts: BTreeMap<u32, u32>,
}

impl CertReader {
    /// Before the first line.
    fn new(alloc: Global, sizes: Sizes) -> CertReader
        ensures sizes { result.sizes ≡ sizes }
        ensures draft { result.draft ≡ empty_draft }
        ensures counts { AreCounts result.counts result.draft.plan }
    {
        let plan = Plan {
            paths: List::new(alloc),
        };
        let draft = CertDraft {
            goal: None,
            opened: false,
            ended: false,
            plan,
            nodes: List::new(alloc),
            lines: List::new(alloc),
        };
        CertReader {
            sizes,
            draft,
            counts: BTreeMap::new(alloc),
        }
    }
}

impl LineReader for CertReader {
    type Told = CertDraft;

    ghost reading = { λ r. cert_reading r.sizes };

    ghost told = { λ r. r.draft };

    ghost sound = { λ r. SizesFit r.sizes × AreCounts r.counts r.draft.plan };

    fn is_ended(&self) -> bool {
        self.draft.ended
    }

    fn take_line<'a>(
        &mut self,
        alloc: Global,
        number: u32,
        words: &'a [u8],
    ) -> Result<&'a [u8], LineFault> {
        take_line(
            alloc,
            &self.sizes,
            &mut self.draft,
            &mut self.counts,
            number,
            words,
        )
    }
}

/// The certificate of a text, for a model.
///
/// `Text` comes exactly where the text is not valid, with its first error: that of the first faulty line; then the
/// missing end. The model gives the lengths of the multipliers, and which numbers are unknown; whether the certificate
/// proves its claim is another question. A multiplier that no line names is 0. The time is linear in the text, but for
/// the multipliers of each node, one for each variable, row, packing set and graph of the model, and for the count of
/// each graph of a path, which is looked up in a tree.
pub fn read_cert(alloc: Global, model: &Model, bytes: &[u8]) -> Result<Cert, ReadError>
    requires { length bytes.now < 2 ^ 32 - 1 }
    ensures ok { IfOk result (SpellsCert model.now bytes.now) }
    ensures only { IfOk result (λ cert. (other : Cert) → SpellsCert model.now bytes.now other → other ≡ cert) }
    ensures refused { IfErr result (IsCertRefusal model.now bytes.now) }
    ensures fits { IfOk result (CertFits model.now) }
{
    let sizes = sizes_of(alloc, model)?;
    let reader = read_text(CertReader::new(alloc, sizes), alloc, bytes)?;
    let sizes = sizes_of(alloc, model)?;
    let cert = cert_of(alloc, &sizes, reader.draft)?;
    Ok(cert)
}
