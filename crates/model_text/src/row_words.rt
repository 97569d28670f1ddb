ghost use Rattle.std.specs.Prelude.{◌≡◌, ℕ, ◌+◌, ◌<◌, ◌≤◌, ◌++◌, ◌∷◌, [], length, map, option_map, IfOk, OnOk};
ghost use Rattle.vrp_lex.specs.Text.{words_of};
ghost use Rattle.route_model.specs.declared.limits.TheConstants.{MAX_VARS};
ghost use Rattle.line_text.specs.Words.{to_the_end};
ghost use Rattle.model_text.specs.LineWords.{last_of, is_above, term_wanted, row_wanted};
ghost use Rattle.model_text.specs.Totals.{AreCoefs, term_total};
ghost use Rattle.line_text.specs.Gives.{Gives, IsShorter};

use crate::draft::Draft;
use crate::line_words::{are_reversed, is_above, side_of};
use line_text::{Kind, LineFault, fault_if, has_word, known_below, number_in};
use path_graph::List;
use route_model::{MAX_COEF, MAX_COEF_SUM, MAX_TERMS, Row, RowTerm};
use std::alloc::Global;

/// How many terms the rows have.
fn term_total(rows: &[Row]) -> usize
    requires { term_total rows.now ≤ MAX_TERMS }
    ensures { result ≡ term_total rows.now }
{
    rows.iter().map(|row| row.terms.len()).sum()
}

/// `VARIABLE COEFFICIENT` of a row, after the terms before it. So many terms are in the rows before.
///
/// The absolute coefficient is added to those of its variable.
fn term_of<'a>(
    words: &'a [u8],
    draft: &Draft,
    coefs: &mut [u32],
    total: usize,
    terms: &[RowTerm],
) -> Result<(RowTerm, &'a [u8]), LineFault>
    requires few { length draft.now.vars ≤ MAX_VARS }
    requires coefs { AreCoefs coefs.old draft.now.vars draft.now.rows terms.now }
    requires total { total ≡ term_total draft.now.rows }
    requires few_terms { total ≤ MAX_TERMS }
    ensures gives { Gives (λ x. (x.0, words_of x.1.now)) result
        (term_wanted draft.now.vars draft.now.rows terms.now (words_of words.now)) }
    ensures shorter { IfOk result (λ x. IsShorter words.now x.1.now) }
    ensures coefs { IfOk result (λ x.
        AreCoefs coefs.new draft.now.vars draft.now.rows (terms.now ++ x.0 ∷ [])) }
    ensures few_terms { IfOk result (λ x. total + length terms.now < MAX_TERMS) }
{
    let (var, words) = known_below(words, draft.vars.len() as u32)?;
    fault_if(
        Kind::Order,
        !is_above(terms.last().map(|term| term.var), var),
    )?;
    let (coef, words) = number_in(words, -(MAX_COEF as i64), MAX_COEF as i64)?;
    fault_if(Kind::TooMany, total + terms.len() >= MAX_TERMS)?;
    let sum = u64::from(coefs[var as usize]) + coef.unsigned_abs();
    fault_if(Kind::TooMany, sum > MAX_COEF_SUM)?;
    coefs[var as usize] = sum as u32;
    Ok((RowTerm { var, coef }, words))
}

/// The terms of a row, to the end of the line. Their absolute coefficients are added to those of their variables.
fn terms_of<'a>(
    alloc: Global,
    words: &'a [u8],
    draft: &Draft,
    coefs: &mut [u32],
) -> Result<(List<RowTerm>, &'a [u8]), LineFault>
    requires few { length draft.now.vars ≤ MAX_VARS }
    requires coefs { AreCoefs coefs.old draft.now.vars draft.now.rows [] }
    requires few_terms { term_total draft.now.rows ≤ MAX_TERMS }
    ensures gives { Gives (λ x. (x.0, words_of x.1.now)) result
        (to_the_end (term_wanted draft.now.vars draft.now.rows) (words_of words.now)) }
    ensures coefs { IfOk result (λ x. AreCoefs coefs.new draft.now.vars draft.now.rows x.0) }
    ensures few_terms { IfOk result (λ x. term_total draft.now.rows + length x.0 ≤ MAX_TERMS) }
{
    let total = term_total(draft.rows.as_slice());
    let mut terms = List::new(alloc);
    let mut rest = words;
    while has_word(rest) {
        let (term, behind) = term_of(rest, draft, coefs, total, terms.as_slice())?;
        terms.push(term)?;
        rest = behind;
    }
    Ok((terms, rest))
}

/// `LOW HIGH`, then pairs `VARIABLE COEFFICIENT` of a row. Their absolute coefficients are added to those of their
/// variables.
pub fn row_of<'a>(
    alloc: Global,
    words: &'a [u8],
    draft: &Draft,
    coefs: &mut [u32],
) -> Result<(Row, &'a [u8]), LineFault>
    requires few { length draft.now.vars ≤ MAX_VARS }
    requires coefs { AreCoefs coefs.old draft.now.vars draft.now.rows [] }
    requires few_terms { term_total draft.now.rows ≤ MAX_TERMS }
    ensures gives { Gives (λ x. (x.0, words_of x.1.now)) result
        (row_wanted draft.now.vars draft.now.rows (words_of words.now)) }
    ensures coefs { IfOk result (λ x. AreCoefs coefs.new draft.now.vars draft.now.rows x.0.terms) }
    ensures few_terms { IfOk result (λ x. term_total draft.now.rows + length x.0.terms ≤ MAX_TERMS) }
{
    let (low, words) = side_of(words)?;
    let (high, words) = side_of(words)?;
    fault_if(Kind::Box, are_reversed(low, high))?;
    let (terms, words) = terms_of(alloc, words, draft, coefs)?;
    Ok((Row { low, high, terms }, words))
}
