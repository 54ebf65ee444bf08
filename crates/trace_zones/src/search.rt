//! The search for a certificate that no order explains a trace. Nothing rests on it: a certificate is checked.

ghost use Rattle.std.specs.Prelude.{◌<◌, ◌≤◌, length};

use crate::conflict::{Before, Conflict};
use crate::stretches::{Cut, Stretch};
use crate::uses::{Use, is_over_before, issue_of, uses_of};
use crate::values::{Values, is_marked, values_of};
use std::alloc::{AllocError, Allocator};
use trace_guess::pairs::number_at;
use trace_laws::Event;

/// Traces of more events are not searched.
const MOST_EVENTS: usize = 0xffff_fff0;

/// One word: the operations on it, whether there are others of which it isn't clear what they did, and
/// its values.
#[derive(Drop)]
pub(crate) struct Word<A: Allocator> {
    pub uses: Vec<Use, A>,
    pub unclear: bool,
    pub values: Values<A>,
}

impl<A: Allocator + Copy> Word<A> {
    /// A value that was found before the operation was issued that alone may have written it, or that none may have.
    fn unwritten_at(&self, alloc: A, place: usize) -> Result<Option<Conflict<A>>, AllocError> {
        let values = &self.values;
        let Some(reader) = number_at(&values.readers, place) else {
            return Ok(None);
        };
        if values.opening == Some(place) || is_marked(&values.marked, place) {
            return Ok(None);
        }
        let writer = number_at(&values.writers, place);
        if let Some(w) = writer
            && !is_over_before(&self.uses, reader, w)
        {
            return Ok(None);
        }
        let zone = values.zone_from(alloc, &self.uses, place, 1)?;
        Ok(Some(match writer {
            Some(w) => Conflict::Early {
                zone,
                writer: issue_of(&self.uses, w),
            },
            None => Conflict::Unwritten { zone },
        }))
    }

    /// A value that was found too early, or that nobody wrote.
    fn unwritten(&self, alloc: A) -> Result<Option<Conflict<A>>, AllocError> {
        for place in 0..self.values.numbers.len() {
            let found = self.unwritten_at(alloc, place)?;
            if found.is_some() {
                return Ok(found);
            }
        }
        Ok(None)
    }

    /// A value that two operations found and left.
    fn twice(&self, alloc: A) -> Result<Option<Conflict<A>>, AllocError> {
        let Some((place, first, second)) = self.values.twice else {
            return Ok(None);
        };
        let zone = self.values.zone_from(alloc, &self.uses, place, 1)?;
        Ok(Some(Conflict::Twice {
            zone,
            first: issue_of(&self.uses, first),
            second: issue_of(&self.uses, second),
        }))
    }

    /// Values of a circle.
    fn circular(&self, alloc: A) -> Result<Option<Conflict<A>>, AllocError> {
        let Some(place) = self.values.circle(alloc)? else {
            return Ok(None);
        };
        let zone = self.values.zone_from(alloc, &self.uses, place, usize::MAX)?;
        Ok(Some(Conflict::Unwritten { zone }))
    }

    /// The two parts of a stretch that contradicts itself.
    fn parted(&self, alloc: A, cut: Cut) -> Result<Option<Conflict<A>>, AllocError> {
        let Some(atomic) = number_at(&self.values.writers, cut.place) else {
            return Ok(None);
        };
        let uses = &self.uses;
        let size = cut.stretch.size;
        let one = self.values.zone_from(alloc, uses, cut.stretch.head, size)?;
        let other = self.values.zone_from(alloc, uses, cut.place, usize::MAX)?;
        Ok(Some(Conflict::Crossed {
            one,
            other,
            before: Before::Atomic {
                event: issue_of(uses, atomic),
            },
            behind: Before::Times {
                first: issue_of(uses, cut.late),
                second: issue_of(uses, cut.early),
            },
        }))
    }

    /// Two stretches of which each was seen before the other.
    fn crossed(
        &self,
        alloc: A,
        one: Stretch,
        other: Stretch,
    ) -> Result<Option<Conflict<A>>, AllocError> {
        let uses = &self.uses;
        let (Some(one_last), Some(other_first), Some(other_last)) = (
            one.last,
            other.first,
            other.last,
        ) else {
            return Ok(None);
        };
        let second = issue_of(uses, other_last);
        let before = match one.first {
            Some(first) if !one.opening => Before::Times {
                first: issue_of(uses, first),
                second,
            },
            _ => Before::Opening { event: second },
        };
        Ok(Some(Conflict::Crossed {
            one: self.values.zone_from(alloc, uses, one.head, one.size)?,
            other: self.values.zone_from(alloc, uses, other.head, other.size)?,
            before,
            behind: Before::Times {
                first: issue_of(uses, other_first),
                second: issue_of(uses, one_last),
            },
        }))
    }

    /// The stretches that an operation saw; or where one contradicts itself.
    pub(crate) fn stretches(&self, alloc: A) -> Result<Result<Vec<Stretch, A>, Cut>, AllocError> {
        let mut stretches = Vec::new(alloc);
        for place in 0..self.values.numbers.len() {
            if self.values.is_head(place) {
                match self.values.stretch_from(&self.uses, place) {
                    Ok(stretch) => {
                        if stretch.last.is_some() {
                            stretches.push(stretch)?;
                        }
                    }
                    Err(cut) => return Ok(Err(cut)),
                }
            }
        }
        Ok(Ok(stretches))
    }

    /// The numbers of stretches, by the least of a stretch's first answer and its last issue.
    pub(crate) fn ranked(
        &self,
        alloc: A,
        stretches: &[Stretch],
    ) -> Result<Vec<u64, A>, AllocError> {
        let mut ranks = Vec::new(alloc);
        for n in 0..stretches.len() {
            let stretch = stretches[n];
            let rank = stretch
                .first_time(&self.uses)
                .min(stretch.last_time(&self.uses));
            ranks.push(((rank as u64 & 0xffff_ffff) << 32) | (n as u64 & 0xffff_ffff))?;
        }
        ranks.sort_unstable();
        Ok(ranks)
    }

    /// Two stretches of which each was seen before the other: each is compared with the one that reaches farthest of
    /// those before it.
    fn crossing(&self, stretches: &[Stretch], ranks: &[u64]) -> Option<(Stretch, Stretch)> {
        let mut far: Option<Stretch> = None;
        for rank in ranks {
            let n = (*rank & 0xffff_ffff) as usize;
            if n < stretches.len() {
                let stretch = stretches[n];
                let first = stretch.first_time(&self.uses);
                let last = stretch.last_time(&self.uses);
                if let Some(one) = far
                    && first < one.last_time(&self.uses)
                    && one.first_time(&self.uses) < last
                {
                    return Some((one, stretch));
                }
                let reach = match far {
                    Some(one) => one.last_time(&self.uses),
                    None => 0,
                };
                if first < last && reach < last {
                    far = Some(stretch);
                }
            }
        }
        None
    }

    /// A certificate from the stretches, if one is guessed.
    fn contradiction(&self, alloc: A) -> Result<Option<Conflict<A>>, AllocError> {
        let stretches = match self.stretches(alloc)? {
            Ok(stretches) => stretches,
            Err(cut) => return self.parted(alloc, cut),
        };
        let ranks = self.ranked(alloc, &stretches)?;
        match self.crossing(&stretches, &ranks) {
            Some((one, other)) => self.crossed(alloc, one, other),
            None => Ok(None),
        }
    }

    /// A certificate from what is known of this word, if one is guessed.
    pub(crate) fn conflict(&self, alloc: A) -> Result<Option<Conflict<A>>, AllocError> {
        if self.unclear {
            return Ok(None);
        }
        if let Some(found) = self.unwritten(alloc)? {
            return Ok(Some(found));
        }
        if let Some(found) = self.twice(alloc)? {
            return Ok(Some(found));
        }
        if let Some(found) = self.circular(alloc)? {
            return Ok(Some(found));
        }
        self.contradiction(alloc)
    }
}

/// One word of a trace, with few enough events.
pub(crate) fn word_of<A: Allocator + Copy>(
    alloc: A,
    opening: u64,
    events: &[Event],
    partners: &[Option<usize>],
    mine: &[usize],
) -> Result<Option<Word<A>>, AllocError> {
    if events.len() > MOST_EVENTS {
        return Ok(None);
    }
    let uses = uses_of(alloc, events, partners, mine)?;
    let values = values_of(alloc, opening, &uses.known)?;
    Ok(Some(Word {
        uses: uses.known,
        unclear: uses.unclear,
        values,
    }))
}
