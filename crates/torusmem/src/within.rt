//! A trace that is judged by wider and wider searches, for about a number of seconds.

use command_verdicts::{Judged, judged_order_text, judged_report_text};
use program_fault::ProgramFault;
use report_lines::Out;
use std::alloc::Global;
use std::rt::Clock;
use std::time::Instant;

/// How many configurations of a word the first search allows, how many times as many each wider one does, and how many
/// there are before the last.
const LEAST: u32 = 1 << 12;

const WIDER: u32 = 4;

const SEARCHES: u32 = 10;

/// What is asked of a trace: its order or the report of that, and the most configurations of a word.
#[derive(Clone, Copy)]
pub(crate) struct Wanted {
    pub is_report: bool,
    pub configurations: u32,
}

/// Judges a trace with at most so many configurations of a word at once, and prints what is wanted.
pub(crate) fn judged_with<W: Out>(
    alloc: Global,
    trace: &[u8],
    is_report: bool,
    configurations: u32,
    out: &mut W,
) -> Result<Judged, ProgramFault> {
    if is_report {
        judged_report_text(alloc, trace, u64::from(configurations), out)
    } else {
        judged_order_text(alloc, trace, u64::from(configurations), out)
    }
}

/// Whether a trace isn't decided.
fn is_open(judged: Judged) -> bool {
    match judged {
        Judged::TooMany { .. } | Judged::TooOpen { .. } => true,
        _ => false,
    }
}

/// Whether a wider search likely ends within so many seconds of a moment: it takes as many times as long as the last one, which
/// began at another moment, as it allows configurations.
fn is_time_left<R: Clock>(rt: &R, start: Instant, begun: Instant, seconds: u64) -> bool {
    let Ok(now) = Instant::now(rt) else {
        return false;
    };
    let last = now.duration_since(begun).as_millis();
    let end = now
        .duration_since(start)
        .as_millis()
        .saturating_add(last.saturating_mul(u128::from(WIDER)));
    end <= u128::from(seconds).saturating_mul(1000)
}

/// Judges a trace by searches with more and more configurations of a word, up to those that are wanted, as long as the next
/// likely ends within so many seconds. Answers the verdict, and how many configurations the last search allowed.
///
/// Errors: as those of `judged_order_text` and `judged_report_text`.
pub(crate) fn judged_within<R: Clock + AllocGlobal, W: Out>(
    rt: &R,
    trace: &[u8],
    wanted: Wanted,
    seconds: u64,
    out: &mut W,
) -> Result<(Judged, u32), ProgramFault> {
    let most = wanted.configurations;
    let mut share = LEAST.min(most);
    if let Ok(start) = Instant::now(rt) {
        let mut begun = start;
        for _ in 0..SEARCHES {
            let judged = judged_with(rt.alloc(), trace, wanted.is_report, share, out)?;
            let is_last = share >= most || !is_time_left(rt, start, begun, seconds);
            if is_last || !is_open(judged) {
                return Ok((judged, share));
            }
            begun = Instant::now(rt).unwrap_or(start);
            share = share.saturating_mul(WIDER).min(most);
        }
    }
    let judged = judged_with(rt.alloc(), trace, wanted.is_report, share, out)?;
    Ok((judged, share))
}
