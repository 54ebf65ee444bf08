//! What a line of a dialogue asks for.

ghost use Rattle.std.specs.Prelude.{◌≡◌, map};
ghost use Rattle.torus.specs.Shape.{tiles_of};
ghost use Rattle.lexer.specs.Words.{first_words};
ghost use Rattle.command_live.specs.Command.{alone, ask_of, command_from, command_of, load_digits};
ghost use Rattle.command_live.specs.Command.{named, named_alone, order_from, order_of, round_count};
ghost use Rattle.command_live.specs.Command.{rounds_asked, second_in, step_of, wait_of, word_asked};

use crate::command::Command;
use crate::step::step_asked;
use lexer::first_words;
use script::{an_index, read_line};
use torus::{Fault, Torus};

/// The most rounds that a line asks for.
const MOST_ROUNDS: u32 = 1000000;

/// What stands behind `ask`.
fn ask_of(words: &[&[u8]], tiles: u32, memory: u32) -> Result<Command, Fault>
    ensures { result ≡ ask_of tiles memory (map (λ word. word.now) words.now) }
{
    match words {
        [] => Err(Fault::Line),
        [processor, rest @ ..] => {
            let (p, line) = read_line(processor, rest, tiles, memory)?;
            Ok(Command::Ask(p, line))
        }
    }
}

/// A number of rounds.
fn rounds_asked(count: u32) -> Result<u32, Fault>
    ensures { result ≡ rounds_asked count }
{
    if 1 <= count && count <= MOST_ROUNDS {
        Ok(count)
    } else {
        Err(Fault::Range)
    }
}

/// How many rounds are asked for behind `round` or `clocked`.
fn round_count(words: &[&[u8]]) -> Result<u32, Fault>
    ensures { result ≡ round_count (map (λ word. word.now) words.now) }
{
    match words {
        [] => Ok(1),
        [count] => rounds_asked(an_index(count)?),
        [_, _, ..] => Err(Fault::Line),
    }
}

/// What stands behind `wait`.
fn wait_of(words: &[&[u8]]) -> Result<Command, Fault>
    ensures { result ≡ wait_of (map (λ word. word.now) words.now) }
{
    match words {
        [] => Err(Fault::Line),
        [_] => Err(Fault::Line),
        [processor, index] => {
            let p = an_index(processor)?;
            let i = an_index(index)?;
            Ok(Command::Wait(p, i))
        }
        [_, _, _, ..] => Err(Fault::Line),
    }
}

/// What stands behind `word`: an address of a memory of so many words.
fn word_asked(words: &[&[u8]], memory: u32) -> Result<Command, Fault>
    ensures { result ≡ word_asked memory (map (λ word. word.now) words.now) }
{
    match words {
        [] => Err(Fault::Line),
        [address] => {
            let a = an_index(address)?;
            if a < memory {
                Ok(Command::Word(a))
            } else {
                Err(Fault::Address)
            }
        }
        [_, _, ..] => Err(Fault::Line),
    }
}

/// What stands behind `step`.
fn step_of(words: &[&[u8]], torus: &Torus) -> Result<Command, Fault>
    ensures { result ≡ step_of torus.now (map (λ word. word.now) words.now) }
{
    Ok(Command::Step(step_asked(torus, words)?))
}

/// What a word and the number of a row behind `order` ask for.
fn order_from(word: &[u8], first: &[u8]) -> Result<Command, Fault>
    ensures { result ≡ order_from word.now first.now }
{
    if word == b"from".as_slice() {
        Ok(Command::Order(an_index(first)?))
    } else {
        Err(Fault::Line)
    }
}

/// What stands behind `order`.
fn order_of(words: &[&[u8]]) -> Result<Command, Fault>
    ensures { result ≡ order_of (map (λ word. word.now) words.now) }
{
    match words {
        [word, first] => order_from(word, first),
        [] => Err(Fault::Line),
        [_] => Err(Fault::Line),
        [_, _, _, ..] => Err(Fault::Line),
    }
}

/// A keyword behind which nothing stands.
fn alone(command: Command, words: &[&[u8]]) -> Result<Command, Fault>
    ensures { result ≡ alone command (map (λ word. word.now) words.now) }
{
    match words {
        [] => Ok(command),
        [_, ..] => Err(Fault::Line),
    }
}

/// What stands behind `load`: one word.
fn load_digits(words: &[&[u8]]) -> Result<Command, Fault>
    ensures { result ≡ load_digits (map (λ word. word.now) words.now) }
{
    match words {
        [_] => Ok(Command::Load),
        [] => Err(Fault::Line),
        [_, _, ..] => Err(Fault::Line),
    }
}

/// What a keyword asks for behind which nothing stands.
fn named_alone(keyword: &[u8], rest: &[&[u8]]) -> Result<Command, Fault>
    ensures { result ≡ named_alone keyword.now (map (λ word. word.now) rest.now) }
{
    if keyword == b"finish".as_slice() {
        return alone(Command::Finish, rest);
    }
    if keyword == b"finished".as_slice() {
        return alone(Command::Finished, rest);
    }
    if keyword == b"report".as_slice() {
        return alone(Command::Report, rest);
    }
    if keyword == b"reopen".as_slice() {
        return alone(Command::Reopen, rest);
    }
    if keyword == b"save".as_slice() {
        return alone(Command::Save, rest);
    }
    if keyword == b"quit".as_slice() {
        return alone(Command::Quit, rest);
    }
    Err(Fault::Line)
}

/// What a keyword and the words behind it ask for.
fn named(keyword: &[u8], rest: &[&[u8]], torus: &Torus, memory: u32) -> Result<Command, Fault>
    ensures { result ≡ named torus.now memory keyword.now (map (λ word. word.now) rest.now) }
{
    if keyword == b"ask".as_slice() {
        return ask_of(rest, torus.tiles(), memory);
    }
    if keyword == b"step".as_slice() {
        return step_of(rest, torus);
    }
    if keyword == b"round".as_slice() {
        return Ok(Command::Rounds(round_count(rest)?));
    }
    if keyword == b"clocked".as_slice() {
        return Ok(Command::Clocked(round_count(rest)?));
    }
    if keyword == b"wait".as_slice() {
        return wait_of(rest);
    }
    if keyword == b"word".as_slice() {
        return word_asked(rest, memory);
    }
    if keyword == b"order".as_slice() {
        return order_of(rest);
    }
    if keyword == b"load".as_slice() {
        return load_digits(rest);
    }
    named_alone(keyword, rest)
}

/// What a line asks for, by what its words ask for or their fault.
fn command_from(read: Result<Command, Fault>) -> Command
    ensures { result ≡ command_from read }
{
    match read {
        Ok(command) => command,
        Err(Fault::Line) => Command::Bad,
        Err(fault) => Command::Refused(fault),
    }
}

/// What the words of a line ask for.
fn command_of(words: &[&[u8]], torus: &Torus, memory: u32) -> Command
    ensures { result ≡ command_of torus.now memory (map (λ word. word.now) words.now) }
{
    match words {
        [] => Command::Nothing,
        [[b'#', ..], ..] => Command::Nothing,
        [keyword, rest @ ..] => command_from(named(keyword, rest, torus, memory)),
    }
}

/// What a line asks for, of a machine on this torus, of so many words. It says what it is by its first seven
/// words: no line that asks for something has as many.
pub fn read_command(line: &[u8], torus: &Torus, memory: u32) -> Command
    ensures { result ≡ command_of torus.now memory (first_words line.now) }
{
    let (words, count) = first_words(line);
    command_of(&words[..count], torus, memory)
}

/// The second word of a line, or nothing.
pub fn second_word(line: &[u8]) -> &[u8]
    ensures { result.now ≡ second_in (first_words line.now) }
{
    let (words, count) = first_words(line);
    match &words[..count] {
        [_, second, ..] => second,
        [_] => b"".as_slice(),
        [] => b"".as_slice(),
    }
}
