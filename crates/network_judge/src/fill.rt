//! What fills a channel.

/// A channel, filled with packets of one flit from an injection channel to an ejection channel.
#[derive(Clone, Copy)]
pub struct Fill {
    /// The injection channel.
    pub from: usize,
    /// The ejection channel.
    pub to: usize,
    /// The step of their route at which the filled channel is: 0 at the injection channel.
    pub step: usize,
}
