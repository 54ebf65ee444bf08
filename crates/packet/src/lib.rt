//! What goes between processors and banks: operations, the words that name them, their replies and
//! packets; and what the operations mean on one sequential memory.
#![tactic(auto)]

pub mod assembler;
pub mod flit;
pub mod flit_laws;
pub mod heading;
pub mod kinds;
pub mod laws;
pub mod memory;
pub mod names;
pub mod numbers;
pub mod spelling;

pub use assembler::{Assembler, Kind, Offered};
pub use flit::{head, is_tail};
pub use heading::Head;
pub use kinds::{Code, Op, Operation, Packet, Reply, Request, Response, Values};
pub use memory::apply;
pub use spelling::flits;
