ghost use Rattle.std.specs.Prelude.{map, drop, string_bytes};
ghost use Rattle.command_words.specs.Settings.{MatchLimits, MatchSettings, MatchWith};

use crate::options::{
    Choice, DEFAULT_LABELS, DEFAULT_NODES, DEFAULT_WORKERS, Draft, Named, named_at,
};
use solve_run::Limits;

/// A draft with one option more, unless it has that option.
fn with_option(draft: Draft, named: Named) -> Option<Draft>
    ensures { MatchWith draft named result }
{
    match named.choice {
        Choice::Workers if draft.workers.is_none() => Some(Draft {
            workers: Some(named.number),
            ..draft
        }),
        Choice::Labels if draft.labels.is_none() => Some(Draft {
            labels: Some(named.number),
            ..draft
        }),
        Choice::Nodes if draft.nodes.is_none() => Some(Draft {
            nodes: Some(named.number),
            ..draft
        }),
        _ => None,
    }
}

/// What the options say that stand among the words from a place on.
fn draft_from(words: &[String], first: usize) -> Option<Draft>
    ensures { MatchSettings (drop first (map string_bytes words.now)) result }
{
    let mut draft = Draft {
        workers: None,
        labels: None,
        nodes: None,
    };
    let mut at = first;
    while at < words.len() {
        let named = named_at(words, at)?;
        draft = with_option(draft, named)?;
        at += named.words;
    }
    Some(draft)
}

/// The limits that the options behind the first word say.
pub(crate) fn limits_from(words: &[String]) -> Option<Limits>
    ensures { MatchLimits (drop 1 (map string_bytes words.now)) result }
{
    let draft = draft_from(words, 1)?;
    Some(Limits {
        workers: draft.workers.unwrap_or(DEFAULT_WORKERS),
        labels: draft.labels.unwrap_or(DEFAULT_LABELS),
        nodes: draft.nodes.unwrap_or(DEFAULT_NODES),
    })
}
