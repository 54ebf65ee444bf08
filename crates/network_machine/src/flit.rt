//! Flits: words of 64 bits in the plain format.

ghost use Rattle.std.specs.Prelude.{◌≡◌, ◌<◌, ◌^◌, true};
ghost use Rattle.network_judge.specs.LockUps.{plain_format};
ghost use Rattle.network_machine.specs.Packets.{head_word, rest_word};

/// Whether a flit has the head bit.
pub fn is_head(flit: u64) -> bool
    ensures { result ≡ plain_format.is_head flit }
{
    flit / 2 % 2 == 1
}

/// Whether a flit has the tail bit.
pub fn is_tail(flit: u64) -> bool
    ensures { result ≡ plain_format.is_tail flit }
{
    flit % 2 == 1
}

/// The ejection channel that a head flit names, below 2^62.
pub fn told(flit: u64) -> usize
    ensures { result ≡ plain_format.told flit }
{
    (flit / 4) as usize
}

/// The head flit of a packet of this length, at least 1.
pub fn head_flit(to: usize, length: u64) -> u64
    requires { to < 2 ^ 60 }
    ensures { result ≡ head_word to length }
{
    let bits = if length == 1 { 3 } else { 2 };
    to as u64 * 4 + bits
}

/// The next flit of a packet of which so many are left.
pub fn rest_flit(left: u64) -> u64
    ensures { result ≡ rest_word left }
{
    if left == 1 { 1 } else { 0 }
}
