//! Why a machine text and a scripts text are refused, as C sees it.

ghost use Rattle.std.specs.Prelude.{◌≡◌, ◌⊎◌};
ghost use Rattle.std.specs.Str.Lines.{lines};
ghost use Rattle.sentences.specs.Told.{fault_in};
ghost use Rattle.torusmem_c.specs.Explained.{TellsFault, TellsFirst, TellsMemory, explanation};
ghost use Rattle.torusmem_c.specs.Explained.{first_fault, no_fault, text_number};

use crate::outcome::{Code, fault_number};
use crate::room::put_code;
use lexer::{LineFault, Named, Reason};
use sentences::{Sentence, machine_sentence, scripts_sentence};
use std::alloc::Global;
use torus::Fault;

/// One of the texts of a load.
#[derive(Clone, Copy)]
pub enum Text {
    Machine,
    Scripts,
}

/// Why texts are refused: the number of a code, which tells what became of the sentence; the number
/// of the fault, or 0; the number of the text that it is in, or 0; its line; and the length of the
/// sentence.
#[repr(C)]
#[derive(Clone, Copy)]
pub struct Explanation {
    pub code: u32,
    pub fault: u32,
    pub text: u32,
    pub line: u64,
    pub length: u64,
}

/// The number by which C knows the text that a fault is in; out of memory is in none.
fn text_number(text: Text, fault: Fault) -> u32
    ensures { result ≡ text_number text fault }
{
    if let Fault::Memory = fault {
        return 0;
    }
    match text {
        Text::Machine => 1,
        Text::Scripts => 2,
    }
}

impl Explanation {
    /// What C sees of a fault: what became of its sentence, and how long that is.
    fn of(code: Code, text: Text, found: LineFault, length: u64) -> Explanation
        ensures { result ≡ explanation code (record { text = text; fault = found }) length }
    {
        Explanation {
            code: code.number(),
            fault: fault_number(found.fault),
            text: text_number(text, found.fault),
            line: found.line,
            length,
        }
    }

    /// There is no fault.
    fn none() -> Explanation
        ensures { result ≡ no_fault }
    {
        Explanation {
            code: 0,
            fault: 0,
            text: 0,
            line: 0,
            length: 0,
        }
    }
}

/// Puts a sentence on the fault of a text into a buffer, unless memory is refused.
fn put_sentence(alloc: Global, sentence: Sentence<'_>, text: Text, out: &mut [u8]) -> Explanation
    ensures { TellsFault (record { text = text; fault = fault_in sentence.entry }) out.old out.new
        result }
{
    let found = LineFault {
        fault: sentence.reason.fault(),
        line: sentence.line,
    };
    match format!(in alloc; "{sentence}") {
        Ok(said) => {
            let said = said.as_bytes();
            let code = put_code(Code::Done, said, out);
            Explanation::of(code, text, found, said.len() as u64)
        }
        Err(_) => Explanation::of(Code::Fault(Fault::Memory), text, found, 0),
    }
}

/// Tells the first fault of a machine text and a scripts text, taken in this order, and puts a
/// sentence on it into a buffer.
#[unsafe(no_mangle)]
pub extern "C" fn torusmem_explain(
    alloc: Global,
    machine: &[u8],
    scripts: &[u8],
    out: &mut [u8],
) -> Explanation
    ensures { TellsFirst (first_fault (lines machine.now) (lines scripts.now)) out.old out.new
        result ⊎ TellsMemory out.old out.new result }
{
    let machine = Named {
        name: "machine",
        text: machine,
    };
    let scripts = Named {
        name: "scripts",
        text: scripts,
    };
    if let Some(sentence) = machine_sentence(alloc, machine) {
        return put_sentence(alloc, sentence, Text::Machine, out);
    }
    match scripts_sentence(alloc, machine, scripts) {
        Some(sentence) => put_sentence(alloc, sentence, Text::Scripts, out),
        None => Explanation::none(),
    }
}
