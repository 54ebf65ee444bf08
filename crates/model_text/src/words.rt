//! The words of a line of a log, of which a line has more than other texts' lines.

ghost use Rattle.std.specs.Prelude.{◌≡◌, ◌≤◌, [], ◌∷◌, length, map, not, take, IfSome, IfNone};
ghost use Rattle.std.specs.List.{position_or_len};
ghost use Rattle.lexer.specs.Words.{is_blank, words_of};
ghost use Rattle.model_text.specs.Lines.{log_words};

/// More words than a line of a log has that means something, comments apart.
const MOST: usize = 10;

/// Whether a byte stands between words.
fn is_blank(byte: u8) -> bool
    ensures { result ≡ is_blank byte }
{
    byte == b' ' || byte == b'\t'
}

/// Where the first byte stands that is no blank, or the end.
fn blanks_end(line: &[u8]) -> usize
    ensures value { result ≡ position_or_len (λ b. not (is_blank b)) line.now }
    ensures within { result ≤ length line.now }
{
    for (i, b) in line.iter().enumerate() {
        if !is_blank(*b) {
            return i;
        }
    }
    line.len()
}

/// Where the first blank stands, or the end.
fn word_end(line: &[u8]) -> usize
    ensures value { result ≡ position_or_len is_blank line.now }
    ensures within { result ≤ length line.now }
{
    for (i, b) in line.iter().enumerate() {
        if is_blank(*b) {
            return i;
        }
    }
    line.len()
}

/// The first word of a line, and what follows it.
fn next_word(line: &[u8]) -> Option<(&[u8], &[u8])>
    ensures none { IfNone result (words_of line.now ≡ []) }
    ensures some { IfSome result (λ p. words_of line.now ≡ p.0.now ∷ words_of p.1.now) }
{
    let rest = &line[blanks_end(line)..];
    if rest.is_empty() {
        return None;
    }
    let end = word_end(rest);
    Some((&rest[..end], &rest[end..]))
}

/// The first words of a line of a log, at most 10, and how many they are.
pub fn log_words(line: &[u8]) -> ([&[u8]; MOST], usize)
    ensures count { result.1 ≤ 10 }
    ensures words { map (λ word. word.now) (take result.1 result.0) ≡ log_words line.now }
{
    let mut words = [b"".as_slice(); MOST];
    let mut count = 0;
    let mut rest = line;
    while count < MOST {
        let Some((word, after)) = next_word(rest) else {
            break;
        };
        words[count] = word;
        count += 1;
        rest = after;
    }
    (words, count)
}
