//! What a C program holds or hands over: handles of machines and watches, structs of a flag and a pointer; and traces as arrays of records.
#![tactic(auto)]

mod fault;
mod gathering;
mod kept;
mod machine_handle;
mod machine_slot;
pub mod record;
pub mod records;
mod watch_bytes;
mod watch_handle;
mod watch_reading;
mod watch_rows;
mod watch_slot;

pub use kept::Kept;
pub use machine_handle::MachineHandle;
pub use record::EventRecord;
pub use records::trace_of_records;
pub use watch_bytes::watch_of_bytes;
pub use watch_handle::WatchHandle;

/// Of what may go to another thread.
fn crosses<T: Send>() {}

/// A handle may go to another thread between two calls.
pub fn handles_cross() {
    crosses::<MachineHandle>();
    crosses::<WatchHandle>()
}
