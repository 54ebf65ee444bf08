//! The checksum of bytes.

ghost use Rattle.std.specs.Prelude.{◌≡◌};
ghost use Rattle.machine_record.specs.Checksum.{checksum};

/// The checksum of bytes: their sum, and the sum of the sums of their beginnings, each modulo 2^32, the latter
/// in the upper half (Fletcher, IEEE Transactions on Communications 30(1), 1982).
pub fn checksum(bytes: &[u8]) -> u64
    ensures { result ≡ checksum bytes.now }
{
    let mut sum = 0u64;
    let mut sums = 0u64;
    for byte in bytes {
        sum = (sum + u64::from(*byte)) % 4294967296;
        sums = (sums + sum) % 4294967296;
    }
    sums * 4294967296 + sum
}
