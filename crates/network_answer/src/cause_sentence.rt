//! The sentence of a cause, which names channels as the text does.

use crate::causes::{Cause, Wait};
use network_adaptive::shape::{Misfit, NoChoice};
use network_adaptive::{NoEscape, Round};
use network_judge::Kind;
use network_judge::walk::kind_at;
use network_text::Title;
use std::fmt;

/// Why a verdict is as it is, as a sentence: `packets to 5 (out of 1,0) that hold channel 8 (0,0 to 1,0) wait
/// for channel 9 (1,0 to 0,0)`.
#[derive(Clone, Copy)]
pub struct CauseSentence<'a> {
    /// The text; an empty one where it has no names.
    pub text: &'a [u8],
    /// The kind of each channel.
    pub kinds: &'a [Kind],
    pub cause: Cause,
}

impl<'a> CauseSentence<'a> {
    /// A channel as the sentence names it.
    fn title(&self, channel: usize) -> Title<'a> {
        Title {
            text: self.text,
            kind: kind_at(self.kinds, channel).unwrap_or(Kind::Hop),
            channel,
        }
    }

    /// Writes the sentence of packets that wait.
    fn put_wait<W: fmt::Write>(&self, f: &mut fmt::Formatter<W>, wait: Wait) -> fmt::Result {
        let further = if wait.further {
            " may go on over others, and then"
        } else {
            ""
        };
        let (to, held, next) = (
            self.title(wait.to),
            self.title(wait.held),
            self.title(wait.next),
        );
        write!(
            f,
            "packets to {to} that hold channel {held}{further} wait for channel {next}"
        )
    }

    /// Writes behind which channel packets can't go on.
    fn put_fault<W: fmt::Write>(
        &self,
        f: &mut fmt::Formatter<W>,
        fault: NoEscape,
        why: &str,
    ) -> fmt::Result {
        let (to, at) = (self.title(fault.to), self.title(fault.at));
        write!(
            f,
            "packets to channel {to} come to channel {at}, behind which {why}"
        )
    }
}

impl<'a> CauseSentence<'a> {
    /// Writes where packets can go round.
    fn put_round<W: fmt::Write>(&self, f: &mut fmt::Formatter<W>, round: Round) -> fmt::Result {
        let (to, at) = (self.title(round.to), self.title(round.at));
        write!(
            f,
            "packets to channel {to} can come back to channel {at}, so nothing bounds how far they go"
        )
    }

    /// Writes why a choice can't stand.
    fn put_choice<W: fmt::Write>(
        &self,
        f: &mut fmt::Formatter<W>,
        choice: NoChoice,
    ) -> fmt::Result {
        let (to, at, next) = (
            self.title(choice.to),
            self.title(choice.at),
            self.title(choice.next),
        );
        write!(
            f,
            "packets to channel {to} can't go from channel {at} on to channel {next}: "
        )?;
        f.write_str(match choice.why {
            Misfit::Itself => "they are in it already",
            Misfit::Injects => "senders alone put packets there",
            Misfit::Ejects => "what goes there leaves the network at another receiver",
        })
    }
}

impl<'a> fmt::Display for CauseSentence<'a> {
    fn fmt<W: fmt::Write>(&self, f: &mut fmt::Formatter<W>) -> fmt::Result {
        match self.cause {
            Cause::NoPair => f.write_str(
                "no line says join, so no packets go anywhere, and nothing is judged",
            ),
            Cause::Chooses => f.write_str("routers choose among channels"),
            Cause::AllEscapes => f.write_str("no line says escape, so all channels are escapes"),
            Cause::Rises => f.write_str(
                "the numbers rise along every route and over every reply, so no packets wait for one another in a circle",
            ),
            Cause::RisesByEscapes => f.write_str(
                "the numbers rise along all ways from one escape to the next and over every reply, so packets never wait for one another's escapes in a circle",
            ),
            Cause::GoesRound(round) => self.put_round(f, round),
            Cause::WrongChoice(choice) => self.put_choice(f, choice),
            Cause::NoRoute(pair) => {
                let (from, to) = (self.title(pair.from), self.title(pair.to));
                write!(
                    f,
                    "packets from channel {from} to channel {to} have no route"
                )
            }
            Cause::NoChoice(fault) => self.put_fault(f, fault, "they have no choice"),
            Cause::NoEscape(fault) => self.put_fault(
                f,
                fault,
                "none of their choices is an escape",
            ),
            Cause::Waits(wait) => self.put_wait(f, wait),
            Cause::Answered(held, next) => {
                let (held, next) = (self.title(held), self.title(next));
                write!(
                    f,
                    "packets that come out of channel {held} are answered on channel {next}"
                )
            }
            Cause::OneFlit => f.write_str(
                "the run that deadlocks has packets of one flit, which senders put whenever they like, also on channels that answer",
            ),
        }
    }
}
