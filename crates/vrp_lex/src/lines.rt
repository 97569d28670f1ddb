ghost use Rattle.std.specs.Prelude.{◌≡◌, ℕ, ◌-◌, ◌^◌, ◌<◌, ◌≤◌, ◌≢◌, [], length, drop, slice_index, MatchOption};
ghost use Rattle.vrp_lex.specs.Text.{lines_of, is_accepted, has_bad_byte};
ghost use Rattle.vrp_lex.specs.Places.{IsLineAt, IsInText, bytes_of};

/// A line of a text.
///
/// Its bytes, without LF, lie from the place `from` up to the place `to`. Then `next` is the place after its LF, or the
/// length of the text where it has none.
#[derive(Clone, Copy, Debug, PartialEq, Eq)]
pub struct Line {
    pub number: u32,
    pub from: u32,
    pub to: u32,
    pub next: u32,
}

/// The place of the first LF, or the length.
fn line_length(text: &[u8]) -> usize
    ensures within { result ≤ length text.now }
    ensures before { (k : ℕ) → k < result → slice_index text.now k ≢ 10 }
    ensures found { result < length text.now → slice_index text.now result ≡ 10 }
{
    for (place, byte) in text.iter().enumerate() {
        if *byte == b'\n' {
            return place;
        }
    }
    text.len()
}

/// The line that begins at a place, which gets this number. There is none exactly at the end of the text.
///
/// The time is linear in the line.
pub fn next_line(text: &[u8], from: u32, number: u32) -> Option<Line>
    requires short { length text.now < 2 ^ 32 - 1 }
    requires place { from ≤ length text.now }
    ensures { MatchOption result (lines_of (drop from text.now) ≡ []) (IsLineAt text.now from number) }
{
    if from as usize == text.len() {
        return None;
    }
    let to = from + line_length(&text[from as usize..]) as u32;
    let next = if (to as usize) < text.len() {
        to + 1
    } else {
        to
    };
    Some(Line {
        number,
        from,
        to,
        next,
    })
}

fn is_accepted(byte: u8) -> bool
    ensures { result ≡ is_accepted byte }
{
    byte == b' ' || byte == b'\t' || byte == b'\r' || (byte >= b'!' && byte <= b'~')
}

/// Whether a byte before the first `#` is not accepted.
fn has_bad_byte(line: &[u8]) -> bool
    ensures { result ≡ has_bad_byte line.now }
{
    for byte in line {
        if *byte == b'#' {
            return false;
        }
        if !is_accepted(*byte) {
            return true;
        }
    }
    false
}

/// Whether a byte of the line outside its comment is not accepted: neither a blank nor in 0x21 to 0x7E.
///
/// The time is linear in the line.
pub fn bad_byte(text: &[u8], line: &Line) -> bool
    requires { IsInText text.now line.now }
    ensures { result ≡ has_bad_byte (bytes_of text.now line.now) }
{
    has_bad_byte(&text[line.from as usize..line.to as usize])
}
