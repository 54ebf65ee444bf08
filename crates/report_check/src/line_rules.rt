//! The rules that a line breaks: the first lines, `init`, `entry`, `answer` and `word` lines.

ghost use Rattle.std.specs.Prelude.{◌≡◌, ℕ, ◌&&◌, nat_le, slice_get};
ghost use Rattle.report_lines.specs.Line.{radix_list};
ghost use Rattle.report_check.specs.Seen.{Seen, entries_at};
ghost use Rattle.report_check.specs.Shows.{KeepsSeen};
ghost use Rattle.report_check.specs.Broken.{unless, place_broken, header_broken, radices_broken};
ghost use Rattle.report_check.specs.Broken.{shape_broken, word_broken, init_broken, next_broken};
ghost use Rattle.report_check.specs.Broken.{home_broken, reply_broken, entry_broken};
ghost use Rattle.report_check.specs.Broken.{behind_broken, named_broken, answer_broken};
ghost use Rattle.report_check.specs.Broken.{word_left, left_out, left_untold, other_word};
ghost use Rattle.report_check.specs.Broken.{told_broken};

use crate::checker::Checker;
use crate::looks::{home_of, is_same_reply, key_of};
use crate::rule::{Kind, Rule};
use packet::apply;
use report_lines::{AnswerLine, EntryLine, Radices, is_newer};
use std::alloc::Allocator;

/// A rule that is broken unless a test holds.
pub fn unless(holds: bool, wrong: Rule) -> Option<Rule>
    ensures { result ≡ unless holds wrong }
{
    if holds { None } else { Some(wrong) }
}

/// Whether a radix is within the limits.
fn radix_broken(k: u32) -> Option<Rule>
    ensures { result ≡ unless (nat_le 2 k && nat_le k 8) (Rule.Radix k) }
{
    unless(2 <= k && k <= 8, Rule::Radix(k))
}

/// Whether there are more than 64 tiles.
fn tiles_broken(tiles: u32) -> Option<Rule>
    ensures { result ≡ unless (nat_le tiles 64) (Rule.Tiles tiles) }
{
    unless(tiles <= 64, Rule::Tiles(tiles))
}

/// Whether radices are within the limits, and their tiles.
fn radices_broken(radices: Radices) -> Option<Rule>
    ensures { result ≡ radices_broken (radix_list radices) }
{
    match radices {
        Radices::One(k) => radix_broken(k).or(tiles_broken(k)),
        Radices::Two(j, k) => match radix_broken(j).or(radix_broken(k)) {
            Some(rule) => Some(rule),
            None => tiles_broken(j * k),
        },
        Radices::Three(j, k, l) => match radix_broken(j).or(radix_broken(k)).or(radix_broken(l)) {
            Some(rule) => Some(rule),
            None => tiles_broken(j * k * l),
        },
    }
}

/// What rule an address and its word break, behind those of the lines of their kind.
fn word_broken(words: u32, least: u64, address: u32, value: u64) -> Option<Rule>
    ensures { result ≡ word_broken words least address value }
{
    let inside = Rule::Address {
        found: address,
        words,
    };
    let rises = Rule::AddressOrder {
        found: address,
        least,
    };
    unless(address < words, inside)
        .or(unless(least <= u64::from(address), rises))
        .or(unless(0 < value, Rule::Zero { address }))
}

impl<A: Allocator> Checker<A> {
    /// Whether a line of this kind comes too early, or behind those of later kinds.
    fn place_broken(&self, latest: u8, found: Kind) -> Option<Rule>
        ensures { result ≡ place_broken self.now.section latest found }
    {
        unless(self.section != 0, Rule::FirstLine)
            .or(unless(self.section != 1, Rule::SecondLine))
            .or(unless(self.section != 8, Rule::BehindEnd))
            .or(unless(self.section <= latest, Rule::Place(found)))
    }

    /// What rule a first line breaks.
    pub fn header_broken(&self, version: u32) -> Option<Rule>
        ensures { result ≡ header_broken self.now.section version }
    {
        unless(self.section != 1, Rule::SecondLine)
            .or(unless(self.section != 8, Rule::BehindEnd))
            .or(unless(self.section == 0, Rule::Place(Kind::Header)))
            .or(unless(version == 1 || version == 2, Rule::Version(version)))
    }

    /// What rule a shape breaks.
    pub fn shape_broken(&self, radices: Radices, words: u32) -> Option<Rule>
        ensures { result ≡ shape_broken self.now.section radices words }
    {
        unless(self.section != 0, Rule::FirstLine)
            .or(unless(self.section != 8, Rule::BehindEnd))
            .or(unless(self.section == 1, Rule::Place(Kind::Shape)))
            .or(radices_broken(radices))
            .or(unless(1 <= words && words <= 65536, Rule::Words(words)))
    }

    /// What rule an `init` line breaks.
    pub fn init_broken(&self, address: u32, value: u64) -> Option<Rule>
        ensures { (s : Seen) → KeepsSeen s self.now → result ≡ init_broken s address value }
    {
        self.place_broken(3, Kind::Init)
            .or(word_broken(self.words, self.next_init, address, value))
    }

    /// Whether the entry is not the next one of its bank, or banks fall.
    fn next_broken(&self, entry: &EntryLine) -> Option<Rule>
        ensures { (s : Seen) → KeepsSeen s self.now → result ≡ next_broken s entry.now }
    {
        let expected = self.count_at(entry.bank) as u64;
        let bank = Rule::Bank {
            found: entry.bank,
            tiles: self.tiles,
        };
        let rises = Rule::BankOrder {
            found: entry.bank,
            last: self.last_bank,
        };
        let next = Rule::EntryPlace {
            found: entry.place,
            expected,
        };
        let source = Rule::Source {
            found: entry.source,
            tiles: self.tiles,
        };
        unless(entry.bank < self.tiles, bank)
            .or(unless(self.last_bank <= entry.bank, rises))
            .or(unless(u64::from(entry.place) == expected, next))
            .or(unless(entry.source < self.tiles, source))
            .or(unless(entry.tag < 16, Rule::Tag(entry.tag)))
            .or(unless(self.entry_count < 65536, Rule::EntryCount))
    }

    /// Whether the address is at home elsewhere, or the version has no such operation.
    fn home_broken(&self, entry: &EntryLine) -> Option<Rule>
        ensures { (s : Seen) → KeepsSeen s self.now → result ≡ home_broken s entry.now }
    {
        let expected = home_of(entry.address, self.tiles);
        let inside = Rule::Address {
            found: entry.address,
            words: self.words,
        };
        let home = Rule::Home {
            found: entry.bank,
            expected,
        };
        unless(entry.address < self.words, inside)
            .or(unless(expected == entry.bank, home))
            .or(unless(!is_newer(entry.op) || self.version == 2, Rule::Newer))
    }

    /// Whether the reply is not what the operation gives on the memory so far.
    fn reply_broken(&self, entry: &EntryLine) -> Option<Rule>
        ensures { (s : Seen) → KeepsSeen s self.now → result ≡ reply_broken s entry.now }
    {
        let (_, expected) = apply(entry.op, self.word_at(entry.address));
        let reply = Rule::Reply {
            found: entry.reply,
            expected,
            address: entry.address,
        };
        unless(is_same_reply(entry.reply, expected), reply)
    }

    /// What rule an `entry` line breaks.
    pub fn entry_broken(&self, entry: &EntryLine) -> Option<Rule>
        ensures { (s : Seen) → KeepsSeen s self.now → result ≡ entry_broken s entry.now }
    {
        self.place_broken(4, Kind::Entry)
            .or(self.next_broken(entry))
            .or(self.home_broken(entry))
            .or(self.reply_broken(entry))
    }

    /// Whether a line behind the entries may not come yet, or no more.
    pub fn behind_broken(&self, latest: u8, found: Kind) -> Option<Rule>
        ensures { (s : Seen) → KeepsSeen s self.now → result ≡ behind_broken s latest found }
    {
        self.place_broken(latest, found).or(unless(
            self.version != 2 || self.has_newer,
            Rule::NoneNewer,
        ))
    }

    /// Whether the answer is not that of an entry, or of one that has an answer.
    fn named_broken(&self, answer: &AnswerLine) -> Option<Rule>
        ensures { (s : Seen) → KeepsSeen s self.now
            → result ≡ named_broken s answer.now
            (slice_get (entries_at s.entries answer.now.bank) answer.now.place) }
    {
        let Some(kept) = self.kept_at(answer.bank, answer.place as usize) else {
            return Some(Rule::NoEntry {
                bank: answer.bank,
                place: answer.place,
            });
        };
        let processor = Rule::Processor {
            found: answer.processor,
            expected: kept.source,
        };
        let reply = Rule::AnswerReply {
            found: answer.reply,
            expected: kept.reply,
        };
        let twice = Rule::AnsweredTwice {
            bank: answer.bank,
            place: answer.place,
        };
        unless(kept.source == answer.processor, processor)
            .or(unless(is_same_reply(kept.reply, answer.reply), reply))
            .or(unless(!kept.answered, twice))
    }

    /// What rule an `answer` line breaks.
    pub fn answer_broken(&self, answer: &AnswerLine) -> Option<Rule>
        ensures { (s : Seen) → KeepsSeen s self.now → result ≡ answer_broken s answer.now }
    {
        let rises = Rule::AnswerOrder {
            processor: answer.processor,
            index: answer.index,
        };
        self.behind_broken(5, Kind::Answer)
            .or(unless(answer.index < 4096, Rule::Index(answer.index)))
            .or(unless(self.next_answer <= key_of(answer), rises))
            .or(self.named_broken(answer))
    }

    /// Whether the word of an address is not 0.
    fn word_left(&self, address: u32) -> Option<Rule>
        ensures { result ≡ word_left self.now.memory.items address }
    {
        let word = self.word_at(address);
        unless(word == 0, Rule::LeftOut { address, word })
    }

    /// Whether a word below an end is left out.
    pub fn left_out(&self, end: u32) -> Option<Rule>
        ensures { result ≡ left_out self.now.memory.items self.now.next_word end }
    {
        if u64::from(end) <= self.next_word {
            return None;
        }
        for address in self.next_word as u32..end {
            if let Some(rule) = self.word_left(address) {
                return Some(rule);
            }
        }
        None
    }

    /// Whether a word is left out; none is behind an `order` line.
    pub fn any_left_out(&self) -> Option<Rule>
        ensures { (s : Seen) → KeepsSeen s self.now → result ≡ left_untold s s.words }
    {
        if self.section == 7 {
            None
        } else {
            self.left_out(self.words)
        }
    }

    /// Whether the word of an address is another one.
    fn other_word(&self, address: u32, value: u64) -> Option<Rule>
        ensures { result ≡ other_word self.now.memory.items address value }
    {
        let expected = self.word_at(address);
        let word = Rule::Word {
            found: value,
            expected,
        };
        unless(expected == value, word)
    }

    /// What rule a `word` line breaks.
    pub fn told_broken(&self, address: u32, value: u64) -> Option<Rule>
        ensures { (s : Seen) → KeepsSeen s self.now → result ≡ told_broken s address value }
    {
        let limits = self
            .behind_broken(6, Kind::Word)
            .or(word_broken(self.words, self.next_word, address, value));
        match limits {
            Some(rule) => Some(rule),
            None => self.left_out(address).or(self.other_word(address, value)),
        }
    }
}
