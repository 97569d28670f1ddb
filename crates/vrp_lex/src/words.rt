ghost use Rattle.std.specs.Prelude.{◌≡◌, ℕ, ◌-◌, ◌^◌, ◌<◌, ◌≤◌, [], ◌∷◌, true, false, length, take, drop, slice_index, slice_range, IsTrue, MatchOption};
ghost use Rattle.std.specs.List.{list_all};
ghost use Rattle.vrp_lex.specs.Text.{words_of, is_blank, is_plain, ends_word};
ghost use Rattle.vrp_lex.specs.Places.{IsInText, bytes_of, IsFirstWord, IsWordAt};

use crate::lines::Line;

fn is_blank(byte: u8) -> bool
    ensures { result ≡ is_blank byte }
{
    byte == b' ' || byte == b'\t' || byte == b'\r'
}

/// How many blanks stand at the front.
fn blanks_length(bytes: &[u8]) -> usize
    ensures within { result ≤ length bytes.now }
    ensures blanks { IsTrue (list_all is_blank (take result bytes.now)) }
    ensures stops { result < length bytes.now → is_blank (slice_index bytes.now result) ≡ false }
{
    for (place, byte) in bytes.iter().enumerate() {
        if !is_blank(*byte) {
            return place;
        }
    }
    bytes.len()
}

fn is_plain(byte: u8) -> bool
    ensures { result ≡ is_plain byte }
{
    !is_blank(byte) && byte != b'#'
}

/// How many bytes of a word stand at the front.
fn word_length(bytes: &[u8]) -> usize
    ensures within { result ≤ length bytes.now }
    ensures plain { IsTrue (list_all is_plain (take result bytes.now)) }
    ensures ends { IsTrue (ends_word (drop result bytes.now)) }
{
    for (place, byte) in bytes.iter().enumerate() {
        if !is_plain(*byte) {
            return place;
        }
    }
    bytes.len()
}

/// The places of the first word.
fn first_word(bytes: &[u8]) -> Option<(usize, usize)>
    ensures { MatchOption result (words_of bytes.now ≡ []) (IsFirstWord bytes.now) }
{
    let blanks = blanks_length(bytes);
    let size = word_length(&bytes[blanks..]);
    if size == 0 {
        return None;
    }
    Some((blanks, blanks + size))
}

/// The first word of bytes of a line, and the bytes behind it, which have the other words.
///
/// So the words of a line are read one after the other in a time that is linear in the line.
pub fn split_word(bytes: &[u8]) -> Option<(&[u8], &[u8])>
    ensures { MatchOption result (words_of bytes.now ≡ [])
        (λ parts. words_of bytes.now ≡ parts.0.now ∷ words_of parts.1.now) }
{
    let (begin, end) = first_word(bytes)?;
    Some((&bytes[begin..end], &bytes[end..]))
}

/// The word of this number, counted from 0: its first place, and the place after it.
///
/// The time is linear in the line. `split_word` reads one word after the other.
pub fn word(text: &[u8], line: &Line, k: u32) -> Option<(u32, u32)>
    requires short { length text.now < 2 ^ 32 - 1 }
    requires line { IsInText text.now line.now }
    ensures { MatchOption result (length (words_of (bytes_of text.now line.now)) ≤ k)
        (IsWordAt text.now line.now.from line.now.to k) }
{
    let bytes = &text[line.from as usize..line.to as usize];
    let mut at = 0;
    for _ in 0..k {
        let (_, end) = first_word(&bytes[at..])?;
        at += end;
    }
    let (begin, end) = first_word(&bytes[at..])?;
    let from = line.from as usize + at;
    Some(((from + begin) as u32, (from + end) as u32))
}
