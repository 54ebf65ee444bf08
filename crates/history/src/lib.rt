//! The reports of runs: of a machine, and of a closed fabric.
#![tactic(auto)]

pub mod ended;
pub mod run;

pub use ended::Ended;
pub use machine_report::{
    AnswerLine, AnswerRow, CheckFault, EntryLine, EntryRow, LineText, OrderLine, Out, OutputFailed,
    Parts, Piped, Radices, Report, ReportLine, check_report, line_of, of_run, write_report,
};
pub use run::of_final;
pub use worker_run::gate::Open;
pub use worker_run::place::Place;
pub use worker_run::watch::Unwatched;
pub use worker_run::{
    End, Fabric, Final, Gate, Machine, ProbeSeat, TileSeat, Turned, Watch, Worker, run_workers,
};
