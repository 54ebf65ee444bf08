use torus::Class;

/// The numbers rise along every route.
#[derive(Clone, Copy, Debug, PartialEq, Eq)]
pub struct Rising;

/// A route along which the numbers do not rise.
#[derive(Clone, Copy, Debug, PartialEq, Eq)]
pub struct NotRising {
    pub class: Class,
    /// The tile where the route begins.
    pub src: u32,
    /// The tile where it ends.
    pub dst: u32,
    /// The position in the route of the first of the two channels, 0 being the injection.
    pub hop: u32,
}
