//! A text and its name.

/// A text and its name.
#[derive(Clone, Copy)]
pub struct Named<'a> {
    pub name: &'a str,
    pub text: &'a [u8],
}
