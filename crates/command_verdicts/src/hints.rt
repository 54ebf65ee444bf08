//! What texts of other formats begin like, of which a tool makes one of ours.

ghost use Rattle.std.specs.Prelude.{◌≡◌, map};
ghost use Rattle.std.specs.Str.Lines.{lines};
ghost use Rattle.command_verdicts.specs.Hints.{are_no_comment, begins_anynet, begins_table};
ghost use Rattle.command_verdicts.specs.Hints.{has_byte};
ghost use Rattle.command_verdicts.specs.Hints.{names_nodes, names_text, parts_cells};

use lexer::{first_words, next_line};

/// Whether a line has this byte.
fn has_byte(wanted: u8, line: &[u8]) -> bool
    ensures { result ≡ has_byte wanted line.now }
{
    line.iter().any(|byte| *byte == wanted)
}

/// Whether the first of these words is that with which a trace text or a log begins.
fn names_text(words: &[&[u8]]) -> bool
    ensures { result ≡ names_text (map (λ word. word.now) words.now) }
{
    match words {
        [word, ..] => *word == b"trace".as_slice() || *word == b"log".as_slice(),
        [] => false,
    }
}

/// Whether a line of these words has what parts cells: a comma; or a semicolon or a tab, where it doesn't
/// begin as those texts do.
fn parts_cells(line: &[u8], words: &[&[u8]]) -> bool
    ensures { result ≡ parts_cells line.now (map (λ word. word.now) words.now) }
{
    has_byte(b',', line) || (!names_text(words) && (has_byte(b';', line) || has_byte(b'\t', line)))
}

/// Whether the words of a line are those of no comment, and there are some.
fn are_no_comment(words: &[&[u8]]) -> bool
    ensures { result ≡ are_no_comment (map (λ word. word.now) words.now) }
{
    match words {
        [] => false,
        [[b'#', ..], ..] => false,
        _ => true,
    }
}

/// Whether a text begins as a table does: its first line is no comment, and has a comma; or it has a semicolon or
/// a tab, and doesn't begin as that of a trace text or of a log does.
pub fn begins_table(text: &[u8]) -> bool
    ensures { result ≡ begins_table (lines text.now) }
{
    match next_line(text) {
        Some((line, _)) => {
            let (words, count) = first_words(line);
            let words = &words[..count];
            parts_cells(line, words) && are_no_comment(words)
        }
        None => false,
    }
}

/// Whether words are those of a line of BookSim's `anynet` files: `router 0 node 0 router 1`.
fn names_nodes(words: &[&[u8]]) -> bool
    ensures { result ≡ names_nodes (map (λ word. word.now) words.now) }
{
    match words {
        [first, _, third, ..] => { *first == b"router".as_slice() && *third == b"node".as_slice() }
        _ => false,
    }
}

/// Whether a text begins as BookSim's `anynet` files do.
pub(crate) fn begins_anynet(text: &[u8]) -> bool
    ensures { result ≡ begins_anynet (lines text.now) }
{
    match next_line(text) {
        Some((line, _)) => {
            let (words, count) = first_words(line);
            names_nodes(&words[..count])
        }
        None => false,
    }
}
