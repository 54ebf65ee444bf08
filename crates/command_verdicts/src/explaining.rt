//! The lines on the texts of networks, runs, traces and logs.

ghost use Rattle.std.specs.Prelude.{◌≤◌};

use crate::explaining_table::{explain_no_order_of_table, explain_table};
use crate::hints::{begins_anynet, begins_table};
use crate::left_word::tell_no_order;
use crate::model::{Modelled, is_report};
use lexer::Refusal;
use model_answer::LogSentence;
use model_replies::read_values;
use model_text::{LogReason, read_log};
use network_rounds::TrafficSentence;
use network_run::{RunSentence, replay_text};
use network_text::{NetworkReason, NetworkSentence, read_network, routing_sentence};
use network_traffic::read_packets;
use program_fault::{
    Kind, Names, ProgramFault, Texts, explain, explain_by, is_of_texts, named, told,
};
use sentences::scripts_sentence;
use trace_why::{conflict_sentence, no_order_sentence, trace_sentence};

/// The line of a fault at which routers begin to choose, where a text is refused for that alone: another
/// reader takes the line.
fn choosing_line(fault: &ProgramFault, sentence: &Option<NetworkSentence<'_>>) -> Option<u64> {
    let ProgramFault::Line(found) = fault else {
        return None;
    };
    match sentence {
        None => Some(found.line),
        Some(sentence) => {
            if sentence.refusal.line == 0 || sentence.refusal.line == found.line {
                None
            } else {
                Some(found.line)
            }
        }
    }
}

/// Says why the text of a network has the fault that the command answers, by where and why it is refused;
/// where it isn't, and memory was refused, that this was behind the text.
pub fn explain_refused<R: Eprint>(
    rt: &R,
    name: &str,
    network: &[u8],
    fault: &ProgramFault,
    refusal: Option<Refusal<NetworkReason>>,
) {
    if is_of_texts(fault) {
        let sentence = refusal.map(|refusal| NetworkSentence {
            name,
            text: network,
            refusal,
        });
        explain_by(rt, fault, sentence);
        if begins_anynet(network) {
            let _ = eprintln!(rt; "tools/network from-booksim {name} makes a network text of it");
        }
    }
}

/// Says why the text of a network has the fault that the command answers, where that can be found.
pub fn explain_network<R: Eprint + AllocGlobal>(
    rt: &R,
    name: &str,
    network: &[u8],
    fault: &ProgramFault,
) {
    if is_of_texts(fault) {
        let sentence = routing_sentence(rt.alloc(), named(name, network));
        match choosing_line(fault, &sentence) {
            None => {
                let refusal = sentence.map(|sentence| sentence.refusal);
                explain_refused(rt, name, network, fault, refusal);
            }
            Some(line) => {
                let _ = eprintln!(rt;
                    "{name}:{line}: routers choose among channels here; runs and simulations take fixed routes alone"
                );
            }
        }
    }
}

/// Says why the texts of a network and of a run have the fault that the command answers, where that
/// can be told: the text of the run only where that of the network has none.
pub fn explain_replay<R: Eprint + AllocGlobal>(
    rt: &R,
    names: (&str, &str),
    texts: &Texts,
    depth: u64,
    fault: &ProgramFault,
)
    requires { depth ≤ 8 }
{
    let (network, run) = (texts.first.as_slice(), texts.second.as_slice());
    match read_network(rt.alloc(), network) {
        Err(_) => explain_network(rt, names.0, network, fault),
        Ok(network) => {
            if is_of_texts(fault) {
                let sentence = match replay_text(rt.alloc(), &network, run, depth) {
                    Ok(_) => None,
                    Err(refusal) => Some(RunSentence {
                        name: names.1,
                        text: run,
                        refusal,
                    }),
                };
                explain_by(rt, fault, sentence);
            }
        }
    }
}

/// Says why the texts of a network and of its traffic have the fault that the command answers, where that
/// can be told: the traffic only where the network has none.
pub fn explain_simulation<R: Eprint + AllocGlobal>(
    rt: &R,
    names: (&str, &str),
    texts: &Texts,
    fault: &ProgramFault,
) {
    let (network, traffic) = (texts.first.as_slice(), texts.second.as_slice());
    match read_network(rt.alloc(), network) {
        Err(_) => explain_network(rt, names.0, network, fault),
        Ok(network) => {
            if is_of_texts(fault) {
                let sentence = match read_packets(rt.alloc(), &network, traffic) {
                    Ok(_) => None,
                    Err(refusal) => Some(TrafficSentence {
                        name: names.1,
                        text: traffic,
                        refusal,
                    }),
                };
                explain_by(rt, fault, sentence);
            }
        }
    }
}

/// Says why the text of a trace, or a table, has the fault that the command answers, where that can be
/// told.
pub fn explain_trace<R: Eprint + AllocGlobal>(
    rt: &R,
    name: &str,
    trace: &[u8],
    fault: &ProgramFault,
) {
    if begins_table(trace) {
        explain_table(rt, name, trace, fault);
    } else if is_of_texts(fault) {
        explain_by(rt, fault, trace_sentence(rt.alloc(), named(name, trace)));
    }
}

/// Says why a text that is judged by memory models has the fault that the command answers, where that can
/// be told. The text is a report, if it begins as one, and else a log.
pub fn explain_models<R: Eprint + AllocGlobal>(
    rt: &R,
    name: &str,
    names: &Names,
    texts: &Texts,
    fault: &ProgramFault,
) {
    if !is_report(&texts.first) {
        explain_log(rt, name, &texts.first, fault);
    } else if let ProgramFault::Line(found) = fault {
        let line = found.line;
        let _ = eprintln!(rt;
            "{name}:{line}: the report has no order lines, by which its operations stand in program order"
        );
    } else {
        explain(rt, Kind::Report, names, texts, fault);
    }
}

/// Says why the texts of a report, of its machine and of its scripts have the fault that the command
/// answers, where that can be found: the report only where the others have none.
pub fn explain_run_models<R: Eprint + AllocGlobal>(
    rt: &R,
    names: (&str, &str, &str),
    of_report: &Names,
    texts: &Texts,
    fault: &ProgramFault,
) {
    let (machine, scripts) = (named(names.1, &texts.second), named(names.2, &texts.third));
    match scripts_sentence(rt.alloc(), machine, scripts) {
        None if !is_report(&texts.first) => {
            let _ = eprintln!(rt; "{}: a report has texts, and this begins as none", names.0);
        }
        None => explain_models(rt, names.0, of_report, texts, fault),
        Some(sentence) => explain_by(rt, fault, Some(sentence)),
    }
}

/// Says in which way a report isn't of the texts that are said to be those of its run.
pub fn explain_other_run<R: Eprint>(rt: &R, names: (&str, &str, &str), modelled: Modelled) {
    let (report, machine, script) = names;
    match modelled {
        Modelled::OtherShape { line } => {
            let _ = eprintln!(rt;
                "{report}:{line}: {machine} has another shape, or another number of words"
            );
        }
        Modelled::OtherOperation {
            line,
            processor,
            passed,
        } => {
            let _ = match passed {
                0 => eprintln!(rt;
                    "{report}:{line}: in {script}, processor {processor} begins with another operation, or has none"
                ),
                1 => eprintln!(rt;
                    "{report}:{line}: in {script}, processor {processor} goes on otherwise behind its first line"
                ),
                _ => eprintln!(rt;
                    "{report}:{line}: in {script}, processor {processor} goes on otherwise behind its first {passed} lines"
                ),
            };
        }
        _ => {}
    }
}

/// Says why the text of a log has the fault that the command answers, where that can be found.
fn explain_log<R: Eprint + AllocGlobal>(rt: &R, name: &str, log: &[u8], fault: &ProgramFault) {
    explain_logged(rt, name, log, read_log(rt.alloc(), log).err(), fault);
}

/// Says the same of a log that is judged by its replies alone.
pub fn explain_values<R: Eprint + AllocGlobal>(
    rt: &R,
    name: &str,
    log: &[u8],
    fault: &ProgramFault,
) {
    explain_logged(rt, name, log, read_values(rt.alloc(), log).err(), fault);
}

/// Says why the text of a log is refused, where it is.
fn explain_logged<R: Eprint + AllocGlobal>(
    rt: &R,
    name: &str,
    log: &[u8],
    refused: Option<Refusal<LogReason>>,
    fault: &ProgramFault,
) {
    if is_of_texts(fault) {
        let sentence = refused.map(|refusal| LogSentence {
            name,
            text: log,
            refusal,
        });
        explain_by(rt, fault, sentence);
        if begins_table(log) {
            let _ = eprintln!(rt; "tools/from_csv {name} --log makes a log of a table");
        }
    }
}

/// Says why no order explains a trace, or the trace of a table, from a line on, where that can be found
/// with at most so many configurations of a word at once.
pub fn explain_no_order<R: Eprint + AllocGlobal>(
    rt: &R,
    name: &str,
    trace: &[u8],
    line: u64,
    configurations: u32,
) {
    let bound = u64::from(configurations);
    if begins_table(trace) {
        explain_no_order_of_table(rt, name, trace, line, bound);
    } else {
        let sentence = no_order_sentence(rt.alloc(), named(name, trace), line, bound);
        tell_no_order(rt, name, sentence);
        let _ = told(rt, conflict_sentence(rt.alloc(), named(name, trace), line));
    }
}
