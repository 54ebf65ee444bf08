//! RISC-V's memory model: preserved program order rule by rule, and whether a trace obeys it, judged.
#![tactic(auto)]

pub mod arcs;
pub mod bounding;
pub mod bounds;
pub mod circling;
pub mod depending;
pub mod equal;
pub mod judging;
pub mod keeping;
pub mod laws;
pub mod lists;
pub mod notes;
pub mod pairs;
pub mod preserved;
pub mod quick;
pub mod reasoned;
pub mod rules;
pub mod shortest;
pub mod thin;
pub mod thinning;
pub mod turns;
pub mod verdict;

pub use judging::judge_rvwmo;
pub use notes::{Accesses, Dependency, DependencyKind, FenceOrder, Note};
pub use preserved::rule_of;
pub use verdict::{PreservedRule, Reason, ReasonedStep, RvwmoVerdict};
