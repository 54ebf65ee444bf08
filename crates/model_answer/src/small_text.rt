//! The text of a small part of a log that no order of a model explains.

ghost use Rattle.std.specs.Prelude.{IfErr, IfOk};
ghost use Rattle.std.specs.Str.Lines.{lines};
ghost use Rattle.model_text.specs.Views.{log_so_far};
ghost use Rattle.model_answer.specs.Answer.{IsNoAnswerTo};
ghost use Rattle.model_answer.specs.SmallTexts.{TellsSmallLog, TellsSmallPart};

use crate::answer::NoAnswer;
use crate::model::AskedModel;
use crate::part::part_of;
use crate::part_text::log_text;
use crate::smallest::{SmallLog, smallest_log};
use model_text::{Log, read_log};
use std::alloc::{AllocError, Allocator, Global};

/// A small part of a log that no order of a model explains, and its text.
#[derive(Drop)]
pub struct SmallLogText<A: Allocator = Global> {
    /// The part.
    pub part: SmallLog<A>,
    /// A log text of its operations, in the same order; it has neither replies nor opening words.
    pub text: Vec<u8, A>,
}

/// A small part of a log that no order of a model explains, and its text; `None` where an order explains all
/// operations of processors.
///
/// Errors: memory.
fn small_part<A: Allocator + Copy>(
    alloc: A,
    log: &Log<A>,
    model: AskedModel,
) -> Result<Option<SmallLogText<A>>, AllocError>
    ensures { IfOk result (TellsSmallPart (log_so_far log.now) model) }
{
    let Some(part) = smallest_log(alloc, log, model)? else {
        return Ok(None);
    };
    let kept = part_of(alloc, log, &part.kept)?;
    let text = log_text(alloc, log.head.words(), &kept)?;
    Ok(Some(SmallLogText { part, text }))
}

/// A small part of the log that a text is that no order of a model explains, and the part's own text; `None`
/// where an order explains all operations of processors. At most 1000 parts are judged.
///
/// Errors: where and why the text is no log, or out of memory.
pub fn smallest_answer<A: Allocator + Copy>(
    alloc: A,
    log: &[u8],
    model: AskedModel,
) -> Result<Option<SmallLogText<A>>, NoAnswer>
    ensures part { IfOk result (TellsSmallLog (lines log.now) model) }
    ensures none { IfErr result (IsNoAnswerTo (lines log.now)) }
{
    let log = match read_log(alloc, log) {
        Ok(log) => log,
        Err(refusal) => return Err(NoAnswer::Refused(refusal)),
    };
    match small_part(alloc, &log, model) {
        Ok(found) => Ok(found),
        Err(_) => Err(NoAnswer::Memory),
    }
}
