//! What an operation of a log is to a memory model.

ghost use Rattle.std.specs.Prelude.{◌≡◌};
ghost use Rattle.model_text.specs.Kinds.{kind_of_op};

use memory_models::Kind;
use packet::Op;

/// The kind of an operation.
pub(crate) fn kind_of_op(op: Op) -> Kind
    ensures { result ≡ kind_of_op op }
{
    match op {
        Op::Load => Kind::Load,
        Op::Store(_) => Kind::Store,
        Op::Swap(_) => Kind::Atomic,
        Op::Cas(_, _) => Kind::Atomic,
        Op::Add(_) => Kind::Atomic,
        Op::And(_) => Kind::Atomic,
        Op::Or(_) => Kind::Atomic,
        Op::Xor(_) => Kind::Atomic,
        Op::Max(_) => Kind::Atomic,
        Op::Min(_) => Kind::Atomic,
    }
}
