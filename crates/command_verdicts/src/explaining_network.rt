//! The lines on the verdict of a network, which name its channels as the text does.

use network_answer::{Answer, Cause, CauseSentence};
use network_text::read_network_or_why;

/// Whether a text may name channels: it has a word that begins such a line, if only in a comment.
fn may_have_names(text: &[u8]) -> bool {
    for k in 0..text.len() {
        let rest = &text[k..];
        if rest.starts_with(b"name") || rest.starts_with(b"link") {
            return true;
        }
    }
    false
}

/// Says from which line on routers choose.
fn say_choosing<R: Eprint + AllocGlobal>(rt: &R, name: &str, text: &[u8]) {
    if let Err(refusal) = read_network_or_why(rt.alloc(), text) {
        let _ = eprintln!(rt;
            "{name}:{}: routers choose among channels from here on",
            refusal.line
        );
    }
}

/// Says why the verdict on the network of a text is as it is, by the names that the text has, and from which
/// line on routers choose.
pub fn explain_verdict<R: Eprint + AllocGlobal>(rt: &R, name: &str, text: &[u8], answer: &Answer) {
    let names = if may_have_names(text) {
        text
    } else {
        b"".as_slice()
    };
    for cause in &answer.causes {
        if let Cause::Chooses = *cause {
            say_choosing(rt, name, text);
            continue;
        }
        let sentence = CauseSentence {
            text: names,
            kinds: &answer.kinds,
            cause: *cause,
        };
        let _ = eprintln!(rt; "{sentence}");
    }
}
