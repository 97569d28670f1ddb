ghost use Rattle.std.specs.Prelude.{[]};
ghost use Rattle.model_text.specs.FirstFault.{model_reading};
ghost use Rattle.model_text.specs.Totals.{IsSound};

use crate::draft::{Draft, Stage};
use crate::model_lines::take_line;
use line_text::{LineFault, LineReader};
use std::alloc::Global;

/// What the lines of a model text say so far, and for each variable the sum of its absolute coefficients.
#[derive(Drop)]
pub struct DraftReader {
    pub draft: Draft,
    coefs: Vec<u32>,
}

impl DraftReader {
    ghost use Rattle.std.specs.Prelude.{◌≡◌};
    ghost use Rattle.model_text.specs.Draft.{empty_draft};

    /// Before the first line.
    pub fn new(alloc: Global) -> DraftReader
        ensures draft { result.draft ≡ empty_draft }
        ensures sound { IsSound result.draft result.coefs.items }
    {
        DraftReader {
            draft: Draft::new(alloc),
            coefs: Vec::new(alloc),
        }
    }
}

impl LineReader for DraftReader {
    type Told = Draft;

    ghost reading = { λ _. model_reading };

    ghost told = { λ r. r.draft };

    ghost sound = { λ r. IsSound r.draft r.coefs.items };

    fn is_ended(&self) -> bool {
        matches!(self.draft.stage, Stage::Ended)
    }

    fn take_line<'a>(
        &mut self,
        alloc: Global,
        number: u32,
        words: &'a [u8],
    ) -> Result<&'a [u8], LineFault> {
        take_line(alloc, &mut self.draft, &mut self.coefs, number, words)
    }
}
