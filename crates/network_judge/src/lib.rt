//! Any wormhole network that is written down as a table, judged: numbers that rise, a source-destination
//! pair without a route, or a cycle; and, for a cycle, channels filled with packets that wait for one
//! another.
#![tactic(auto)]

pub mod check;
pub mod circuits;
pub mod columns;
pub mod dependencies;
pub mod fill;
pub mod jam_laws;
pub mod judging;
pub mod laws;
pub mod links;
pub mod progress_laws;
pub mod search;
pub mod shorter;
pub mod spans;
pub mod table;
pub mod tangles;
pub mod walk;

pub use check::is_jam;
pub use fill::Fill;
pub use judging::judge;
pub use search::find_jam;
pub use table::{By, Join, Kind, Link, NoRoute, Reply, Verdict, Why};
