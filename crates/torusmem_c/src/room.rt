//! What goes into a caller's buffer.

ghost use Rattle.std.specs.Prelude.{◌≡◌, length};
ghost use Rattle.torusmem_c.specs.Room.{put_over, put_as, put_code, put_outcome};

use crate::outcome::{Code, Outcome};

/// Puts these at the front of a buffer, and answers by this code, or that the buffer is too short
/// for all; it stays as it was then.
pub(crate) fn put_code<T: Copy>(code: Code, found: &[T], out: &mut [T]) -> Code
    ensures buffer { out.new ≡ put_over found.now out.old }
    ensures value { result ≡ put_code code found.now out.old }
{
    let count = found.len();
    if count > out.len() {
        return Code::Short;
    }
    out[..count].copy_from_slice(found);
    code
}

/// Puts these at the front of a buffer, and answers by this code how many they are; where the
/// buffer is too short for all, it stays as it was.
pub(crate) fn put_as<T: Copy>(code: Code, found: &[T], out: &mut [T]) -> Outcome
    ensures buffer { out.new ≡ put_over found.now out.old }
    ensures value { result ≡ put_as code found.now out.old }
{
    let code = put_code(code, found, out);
    Outcome::of(code, found.len() as u64)
}

/// Puts these at the front of a buffer, and answers how many they are; where the buffer is too short
/// for all, it stays as it was.
pub(crate) fn put_over<T: Copy>(found: &[T], out: &mut [T]) -> Outcome
    ensures buffer { out.new ≡ put_over found.now out.old }
    ensures value { result ≡ put_outcome found.now out.old }
{
    put_as(Code::Done, found, out)
}
