ghost use Rattle.std.specs.Prelude.{◌≡◌, [], OnOk};
ghost use Rattle.vrp_lex.specs.Text.{words_of};
ghost use Rattle.line_text.specs.Gives.{Gives};
ghost use Rattle.model_text.specs.LineKinds.{kind_of};
ghost use Rattle.model_text.specs.FirstFault.{line_within, line_at};
ghost use Rattle.model_text.specs.Totals.{AreCoefs, IsUnderway};

use crate::draft::{Draft, Stage};
use crate::draft_lines::take_further;
use crate::line_kind::{kind_of, may_stand, passes_limit};
use line_text::{Kind, LineFault, fault_if, version_line, word};
use std::alloc::Global;

/// A line behind the version line and before the end, with this first word.
fn take_within<'a>(
    alloc: Global,
    draft: &mut Draft,
    coefs: &mut Vec<u32>,
    number: u32,
    first: &[u8],
    words: &'a [u8],
) -> Result<&'a [u8], LineFault>
    requires underway { IsUnderway draft.old }
    requires coefs { AreCoefs coefs.old.items draft.old.vars draft.old.rows [] }
    ensures gives { Gives (λ rest. (draft.new, words_of rest.now)) result
        (line_within draft.old number (kind_of first.now) (words_of words.now)) }
    ensures underway { OnOk result (IsUnderway draft.new) }
    ensures coefs { OnOk result (AreCoefs coefs.new.items draft.new.vars draft.new.rows []) }
{
    let Some(kind) = kind_of(first) else {
        return Err(LineFault::Fault(Kind::Word));
    };
    fault_if(Kind::Order, !may_stand(kind, draft.stage))?;
    fault_if(Kind::TooMany, passes_limit(kind, draft))?;
    take_further(alloc, draft, coefs, kind, number, words)
}

/// A line with words before the end. The bytes behind the words that are wanted are handed back.
pub fn take_line<'a>(
    alloc: Global,
    draft: &mut Draft,
    coefs: &mut Vec<u32>,
    number: u32,
    words: &'a [u8],
) -> Result<&'a [u8], LineFault>
    requires underway { IsUnderway draft.old }
    requires coefs { AreCoefs coefs.old.items draft.old.vars draft.old.rows [] }
    ensures gives { Gives (λ rest. (draft.new, words_of rest.now)) result
        (line_at draft.old number (words_of words.now)) }
    ensures underway { OnOk result (IsUnderway draft.new) }
    ensures coefs { OnOk result (AreCoefs coefs.new.items draft.new.vars draft.new.rows []) }
{
    if draft.stage.is_opening() {
        let rest = version_line(words, b"vrpmodel", b"1")?;
        draft.stage = Stage::Variables;
        return Ok(rest);
    }
    let (first, words) = word(words)?;
    take_within(alloc, draft, coefs, number, first, words)
}
