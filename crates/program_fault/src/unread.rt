//! Why a text can't be read.

ghost use Rattle.std.specs.Prelude.{◌≡◌, option_map};
ghost use Rattle.program_fault.specs.Unread.{unread_words};

use std::io::{self, ErrorKind};

/// Why a text can't be read.
#[derive(Clone, Copy)]
pub enum Unread {
    /// What the system answers.
    Refused(ErrorKind),
    /// It is longer than 2 GiB.
    TooLong,
    /// It is standard input, which another text of the command is already.
    Taken,
}

impl Unread {
    /// The words for it, where there are some.
    pub fn words(self) -> Option<&'static str>
        ensures { option_map (λ words. words.now) result ≡ unread_words self }
    {
        match self {
            Unread::Refused(ErrorKind::NotFound) => Some("no such file or directory"),
            Unread::Refused(ErrorKind::PermissionDenied) => Some("permission denied"),
            Unread::Refused(ErrorKind::IsADirectory) => Some("it is a directory"),
            Unread::Refused(_) => None,
            Unread::TooLong => Some("longer than 2 GiB"),
            Unread::Taken => Some("standard input can be one text only"),
        }
    }
}

impl From<io::Error> for Unread {
    fn from(error: io::Error) -> Self {
        Unread::Refused(error.kind())
    }
}
