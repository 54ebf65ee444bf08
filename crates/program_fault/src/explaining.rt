//! What is told of texts that can't be read, or that have a fault.

ghost use Rattle.std.specs.Prelude.{◌≡◌, option_map};
ghost use Rattle.program_fault.specs.LinesUnread.{unread_line_of, unread_text};

use crate::fault_lines::{Kind, fault_line};
use crate::telling::told;
use crate::{Names, ProgramFault, Texts, Unread};
use std::fmt;

/// Why the text of a name can't be read: `FILE: no such file or directory`.
#[derive(Clone, Copy)]
pub struct UnreadLine<'a> {
    pub name: &'a str,
    pub words: &'static str,
}

impl<'a> fmt::Display for UnreadLine<'a> {
    ghost use Rattle.std.specs.Prelude.{Some};
    ghost use Rattle.program_fault.specs.LinesUnread.{unread_text};

    ghost output = { λ line. Some (unread_text line) };

    fn fmt<W: fmt::Write>(&self, f: &mut fmt::Formatter<W>) -> fmt::Result {
        write!(f, "{}: {}", self.name, self.words)
    }
}

/// Why the text of a name can't be read, where there is a word for it.
pub fn unread_line<'a>(name: &'a str, why: Unread) -> Option<UnreadLine<'a>>
    ensures { option_map unread_text result ≡ unread_line_of name.now why }
{
    match why.words() {
        Some(words) => Some(UnreadLine { name, words }),
        None => None,
    }
}

/// Says why a text can't be read, where there is a word for it.
pub fn explain_unread<R: Eprint>(rt: &R, name: &str, why: Unread) {
    let _ = told(rt, unread_line(name, why));
}

/// Says why the texts of a command have the fault that it answers, where that can be found from
/// them.
pub fn explain<R: Eprint + AllocGlobal>(
    rt: &R,
    kind: Kind,
    names: &Names,
    texts: &Texts,
    fault: &ProgramFault,
) {
    if let Ok(line) = fault_line(rt.alloc(), kind, names, texts, fault) {
        let _ = told(rt, line);
    }
}
