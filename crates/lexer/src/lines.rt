//! The lines of a text: they end at line feeds, and a carriage return before one belongs to it.

ghost use Rattle.std.specs.Prelude.{◌≡◌, ◌<◌, ◌==◌, [], ◌∷◌, length, option_map, IfSome, IfNone};
ghost use Rattle.std.specs.List.{position_or_len};
ghost use Rattle.std.specs.Str.Lines.{lines, strip_carriage_return};
ghost use Rattle.lexer.specs.Words.{line_at};

/// The first line of a text, and what follows it; `None` exactly where the text is empty. What
/// follows the last line feed is a line if it isn't empty, and keeps its carriage return.
pub fn next_line(text: &[u8]) -> Option<(&[u8], &[u8])>
    ensures none { IfNone result (lines text.now ≡ []) }
    ensures some { IfSome result (λ p. lines text.now ≡ p.0.now ∷ lines p.1.now) }
    ensures less { IfSome result (λ p. length p.1.now < length text.now) }
{
    if text.is_empty() {
        return None;
    }
    let end = line_end(text);
    if end == text.len() {
        return Some((text, &text[end..]));
    }
    Some((without_return(&text[..end]), &text[end + 1..]))
}

/// Where the first line feed stands, or the end.
fn line_end(text: &[u8]) -> usize
    ensures { result ≡ position_or_len (λ b. b == 10) text.now }
{
    for (i, b) in text.iter().enumerate() {
        if *b == b'\n' {
            return i;
        }
    }
    text.len()
}

/// A line without the carriage return at its end.
fn without_return(line: &[u8]) -> &[u8]
    ensures { result.now ≡ strip_carriage_return line.now }
{
    match line {
        [front @ .., b'\r'] => front,
        _ => line,
    }
}

/// The line of a number, which counts from 1; `None` where the text has fewer lines.
pub fn line_at(text: &[u8], wanted: u64) -> Option<&[u8]>
    ensures { option_map (λ line. line.now) result ≡ line_at wanted 1 (lines text.now) }
{
    let mut at = 1u64;
    let mut rest = text;
    while let Some((line, after)) = next_line(rest) {
        if at == wanted {
            return Some(line);
        }
        at += 1;
        rest = after;
    }
    None
}
