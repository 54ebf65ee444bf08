//! Why a line of a table is refused.

ghost use Rattle.std.specs.Prelude.{◌≡◌};

use crate::column::Column;
use lexer::Reason;
use torus::Fault;
use trace_lines::LineReason;

/// Why a line of a table is refused.
#[derive(Clone, Copy)]
pub enum TableReason {
    /// The first line doesn't name this column.
    Missing(Column),
    /// The line has a quote.
    Quote,
    /// The line has more or fewer cells than the first one.
    CellCount,
    /// There are 4194304 operations already.
    OperationsLimits,
    /// The cell of this column is empty, or none of what stands there: a processor is a number below 4096, a
    /// time a whole number below 2^64, and an operation, an address or a reply is one word.
    Cell(Column),
    /// The operation, its address, its values or its reply is refused as in a trace text: the address and the
    /// values are the words at the places 3 to 5. Or a request for memory was refused.
    Line(LineReason),
    /// A cas says that it found another word than the one that it expects, but not which.
    FoundUnnamed,
    /// The operation is answered before it is issued.
    Backwards,
}

impl From<LineReason> for TableReason {
    ghost use Rattle.trace_table.specs.declared.reason.TableReason.TheVariants.{Line};

    ghost from_gives = { λ reason told. told ≡ Line reason };

    fn from(reason: LineReason) -> TableReason {
        TableReason::Line(reason)
    }
}

impl Reason for TableReason {
    ghost use Rattle.trace_table.specs.Reasons.{table_fault_of};

    ghost fault_of = { table_fault_of };

    fn fault(self) -> Fault {
        match self {
            TableReason::Missing(_) => Fault::Setting,
            TableReason::Quote => Fault::Line,
            TableReason::CellCount => Fault::Line,
            TableReason::OperationsLimits => Fault::Length,
            TableReason::Cell(_) => Fault::Line,
            TableReason::Line(reason) => reason.fault(),
            TableReason::FoundUnnamed => Fault::Line,
            TableReason::Backwards => Fault::Range,
        }
    }
}
