//! The commands that judge networks, traces and logs, and the lines that explain their verdicts.
#![tactic(auto)]

pub mod command;
pub mod explaining;
pub mod explaining_network;
mod explaining_table;
pub mod hints;
pub mod json;
mod left_word;
pub mod model;
pub mod network;
pub mod report;
pub mod run_model;
pub mod runs;
pub mod small_log;
pub mod smallest;
pub mod table;
pub mod told;
pub mod values;
pub mod watched;
pub mod watched_table;

pub use command::{Judged, linearize_text};
pub use explaining::{
    explain_models, explain_network, explain_no_order, explain_other_run, explain_refused,
    explain_replay, explain_run_models, explain_simulation, explain_trace, explain_values,
};
pub use explaining_network::explain_verdict;
pub use hints::begins_table;
pub use json::{Verdict, json_object, verdict_of_status};
pub use model::{
    AskedModels, Modelled, is_report, judged_models_text, model_text, report_models_text,
};
pub use network::{named_network_text, network_text, network_text_once};
pub use report::report_text;
pub use run_model::{run_models_text, texts_models_text};
pub use runs::{lock_up_text, replay_network_text, simulate_text};
pub use small_log::{small_log_of, tell_small_log, unbroken_models_text};
pub use smallest::{shrunk_of, tell_smallest};
pub use table::{judged_order_text, judged_report_text, linearize_table, report_table};
pub use told::{judged_verdict, model_status, model_verdict, status, tried_text, verdict_text};
pub use trace_answer::LineText;
pub use values::{Decided, decided_status, values_text};
pub use watched::watched_verdict;
pub use watched_table::watch_table;
