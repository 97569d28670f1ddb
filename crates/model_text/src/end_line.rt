ghost use Rattle.std.specs.Prelude.{◌≡◌, ◌<◌, ◌≤◌, ◌-◌, ◌^◌, length};
ghost use Rattle.vrp_lex.specs.Text.{words_of};
ghost use Rattle.vrp_lex.specs.Places.{IsInText, bytes_of};
ghost use Rattle.model_text.specs.ModelEnd.{begins_with_end, is_end_line, model_end};

use vrp_lex::{Line, next_line, split_word};

/// Whether the first word is `end`.
fn begins_with_end(words: &[u8]) -> bool
    ensures { result ≡ begins_with_end (words_of words.now) }
{
    match split_word(words) {
        None => false,
        Some((first, _)) => first == b"end".as_slice(),
    }
}

/// Whether the first word of a line is `end`.
fn is_end_line(text: &[u8], line: &Line) -> bool
    requires { IsInText text.now line.now }
    ensures { result ≡ is_end_line (bytes_of text.now line.now) }
{
    begins_with_end(&text[line.from as usize..line.to as usize])
}

/// The place after the first line that has `end` as its first word, or the length where there is none.
///
/// So a text that goes on behind a model is cut in two: a model text that is read has no words behind its end. The time
/// is linear in what stands before that place.
pub fn model_end(bytes: &[u8]) -> u32
    requires { length bytes.now < 2 ^ 32 - 1 }
    ensures { result ≡ model_end bytes.now }
{
    let mut at = 0;
    while let Some(line) = next_line(bytes, at, 1) {
        at = line.next;
        if is_end_line(bytes, &line) {
            return at;
        }
    }
    at
}
