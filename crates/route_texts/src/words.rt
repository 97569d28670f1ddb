ghost use Rattle.std.specs.Prelude.{◌≡◌, ℕ, ◌-◌, ◌<◌, ◌≤◌, ◌≢◌, [], ◌∷◌, true, false, length, take, drop, not, slice_index, slice_range, IsTrue, MatchOption, None, Some};
ghost use Rattle.std.specs.List.{list_all};
ghost use Rattle.vrp_lex.specs.Text.{is_blank};
ghost use Rattle.route_texts.specs.Words.{words_in, ends_word, cut_at};
ghost use Rattle.route_texts.specs.Places.{IsFirstWord};

fn is_blank(byte: u8) -> bool
    ensures { result ≡ is_blank byte }
{
    byte == b' ' || byte == b'\t' || byte == b'\r'
}

/// How many blanks stand at the front.
fn blanks_length(bytes: &[u8]) -> usize
    ensures within { result ≤ length bytes.now }
    ensures blanks { IsTrue (list_all is_blank (take result bytes.now)) }
    ensures stops { result < length bytes.now → is_blank (slice_index bytes.now result) ≡ false }
{
    for (place, byte) in bytes.iter().enumerate() {
        if !is_blank(*byte) {
            return place;
        }
    }
    bytes.len()
}

/// How many bytes of a word stand at the front.
fn word_length(bytes: &[u8]) -> usize
    ensures within { result ≤ length bytes.now }
    ensures plain { IsTrue (list_all (λ b. not (is_blank b)) (take result bytes.now)) }
    ensures ends { IsTrue (ends_word (drop result bytes.now)) }
{
    for (place, byte) in bytes.iter().enumerate() {
        if is_blank(*byte) {
            return place;
        }
    }
    bytes.len()
}

/// The places of the first word.
fn first_word(bytes: &[u8]) -> Option<(usize, usize)>
    ensures { MatchOption result (words_in bytes.now ≡ []) (IsFirstWord bytes.now) }
{
    let blanks = blanks_length(bytes);
    let size = word_length(&bytes[blanks..]);
    if size == 0 {
        return None;
    }
    Some((blanks, blanks + size))
}

/// The first word of bytes of a line, and the bytes behind it, which have the other words.
pub fn split_word(bytes: &[u8]) -> Option<(&[u8], &[u8])>
    ensures { MatchOption result (words_in bytes.now ≡ [])
        (λ parts. words_in bytes.now ≡ parts.0.now ∷ words_in parts.1.now) }
{
    let (begin, end) = first_word(bytes)?;
    Some((&bytes[begin..end], &bytes[end..]))
}

/// The place of the first byte of this value, or the length.
fn place_of(bytes: &[u8], mark: u8) -> usize
    ensures within { result ≤ length bytes.now }
    ensures before { (k : ℕ) → k < result → slice_index bytes.now k ≢ mark }
    ensures found { result < length bytes.now → slice_index bytes.now result ≡ mark }
{
    for (place, byte) in bytes.iter().enumerate() {
        if *byte == mark {
            return place;
        }
    }
    bytes.len()
}

/// The bytes before and behind the first byte of this value, if there is one.
pub fn cut_at(bytes: &[u8], mark: u8) -> Option<(&[u8], &[u8])>
    ensures { MatchOption result (cut_at mark bytes.now ≡ None)
        (λ parts. cut_at mark bytes.now ≡ Some (parts.0.now, parts.1.now)) }
{
    let place = place_of(bytes, mark);
    if place == bytes.len() {
        return None;
    }
    Some((&bytes[..place], &bytes[place + 1..]))
}
