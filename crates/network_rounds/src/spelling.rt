//! The packet that a line of a traffic text spells.

ghost use Rattle.std.specs.Prelude.{◌≡◌, ◌∷◌, [], map};
ghost use Rattle.network_rounds.specs.Packets.{number_of_packet, limited, timed_of_words};
ghost use Rattle.network_rounds.specs.Packets.{spelled_timed};

use crate::Timed;
use crate::reason::TrafficReason;
use lexer::index;
use network_machine::Packet;

/// What a round or a length spells that is too large.
const MOST: u32 = 1 << 31;

/// The number that a word spells where one belongs, of the word at this place of its line.
fn number_of_packet(place: u32, word: &[u8]) -> Result<u32, TrafficReason>
    ensures { result ≡ number_of_packet place word.now }
{
    index(word).ok_or(TrafficReason::NotNumber(place))
}

/// A number from 1 to 2147483647.
///
/// Errors: this reason.
fn limited(number: u32, why: TrafficReason) -> Result<u64, TrafficReason>
    ensures { result ≡ limited number why }
{
    if number >= 1 && number < MOST {
        return Ok(u64::from(number));
    }
    Err(why)
}

/// The packet of four words: its round, its channels and how many flits it has.
fn timed_of_words(a: &[u8], b: &[u8], c: &[u8], d: &[u8]) -> Result<Timed, TrafficReason>
    ensures { result ≡ timed_of_words a.now b.now c.now d.now }
{
    let number = number_of_packet(1, a)?;
    let round = limited(number, TrafficReason::RoundLimits)?;
    let from = number_of_packet(3, b)?;
    let to = number_of_packet(4, c)?;
    let count = number_of_packet(5, d)?;
    let length = limited(count, TrafficReason::LengthLimits)?;
    Ok(Timed {
        round,
        packet: Packet {
            from: from as usize,
            to: to as usize,
            length,
        },
    })
}

/// The packet that the words of a line spell.
pub(crate) fn spelled_timed(words: &[&[u8]]) -> Result<Timed, TrafficReason>
    ensures { result ≡ spelled_timed (map (λ word. word.now) words.now) }
{
    match words {
        [at, a, send, b, c, d] => {
            if *at == b"at".as_slice() && *send == b"send".as_slice() {
                return timed_of_words(a, b, c, d);
            }
            Err(TrafficReason::NotPacket)
        }
        _ => Err(TrafficReason::NotPacket),
    }
}
