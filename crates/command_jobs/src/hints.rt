//! What of a report an editor may have changed.

ghost use Rattle.std.specs.Prelude.{◌≡◌, option_map};
ghost use Rattle.command_jobs.specs.Hints.{has_return, report_hint};

/// Whether a text has a carriage return.
fn has_return(text: &[u8]) -> bool
    ensures { result ≡ has_return text.now }
{
    text.iter().any(|byte| *byte == b'\r')
}

/// What all of a bad report has that none may have, if it is that of another editor or system.
pub(crate) fn report_hint(text: &[u8]) -> Option<&'static str>
    ensures { option_map (λ words. words.now) result ≡ report_hint text.now }
{
    if text.starts_with(b"\xef\xbb\xbf") {
        return Some("it begins with a byte order mark, and a report with torusmem");
    }
    if has_return(text) {
        return Some("it has carriage returns, and the lines of a report end in line feeds alone");
    }
    None
}
