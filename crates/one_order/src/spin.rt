//! A spin that isn't over.

ghost use Rattle.std.specs.Prelude.{◌≡◌, ◌<◌};
ghost use Rattle.one_order.specs.Scripts.{reply_number};
ghost use Rattle.one_order.specs.Following.{spin_answered};

use packet::Reply;

/// A spin of which a load is issued, and which isn't over.
#[derive(Clone, Copy)]
pub struct OpenSpin {
    pub address: u32,
    /// The number whose reply ends the spin.
    pub sought: u64,
    /// How many loads it may still make.
    pub left: u32,
}

/// The number that a reply brings; `Ok` counts as 0.
pub(crate) fn reply_number(reply: Reply) -> u64
    ensures { result ≡ reply_number reply }
{
    match reply {
        Reply::Ok => 0,
        Reply::Old(word) => word,
    }
}

/// The spin after its last load was answered: over when the number sought was replied, or no load
/// is left.
pub(crate) fn spin_answered(spin: Option<OpenSpin>, reply: Reply) -> Option<OpenSpin>
    ensures { result ≡ spin_answered spin reply }
{
    match spin {
        Some(open) if reply_number(reply) != open.sought && open.left != 0 => spin,
        _ => None,
    }
}
