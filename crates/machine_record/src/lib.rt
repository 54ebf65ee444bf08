//! A machine that keeps a record of what is done to it, the record's bytes, and the machine that these
//! bytes make again.
#![tactic(auto)]

pub mod action;
pub mod bytes;
pub mod checksum;
pub mod clocked;
pub mod going_on;
mod keeping;
pub mod laws;
pub mod reading;
pub mod record;
pub mod recorded;
mod replay;
pub mod restoring;
pub mod row;

pub use action::{Action, Turns};
pub use bytes::bytes_of;
pub use machine_asked::{AskedMachine, Machine};
pub use reading::{Unread, record_of};
pub use record::{Record, begun, begun_without_scripts, copied};
pub use recorded::RecordedMachine;
pub use restoring::Unrestored;
pub use row::LineRow;
