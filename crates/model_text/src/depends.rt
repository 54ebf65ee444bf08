//! Dependencies of a log's operations.

ghost use Rattle.std.specs.Prelude.{◌≡◌, map};
ghost use Rattle.lexer.specs.Outcome.{Makes};
ghost use Rattle.memory_models.specs.Trace.{is_load};
ghost use Rattle.model_text.specs.Depends.{after_depends_line, dependency_named, number_made, note_by};
ghost use Rattle.model_text.specs.Depends.{add_dependency, depends_wrong, gives_nothing, dependency_wrong};
ghost use Rattle.model_text.specs.Views.{log_so_far};

use crate::form::two_numbers;
use crate::log::Log;
use crate::reason::{LogKeyword, LogReason};
use crate::sources::number_at_index;
use crate::trace::{kind_of_step, logged_at};
use memory_models::Kind;
use memory_models::kinds::is_load;
use std::alloc::Allocator;
use trace_lines::{LineReason, number_at};
use weak_models::notes::{is_conditional, note_of};
use weak_models::{Dependency, DependencyKind, Note};

/// The kind of dependency that a word names.
fn dependency_named(word: &[u8]) -> Option<DependencyKind>
    ensures { result ≡ dependency_named word.now }
{
    if word == b"address".as_slice() {
        return Some(DependencyKind::Address);
    }
    if word == b"data".as_slice() {
        return Some(DependencyKind::Data);
    }
    if word == b"control".as_slice() {
        return Some(DependencyKind::Control);
    }
    None
}

/// Whether an operation of a kind gives its processor nothing: a store that is no store conditional.
fn gives_nothing(kind: Kind, note: Note) -> bool
    ensures { result ≡ gives_nothing kind note }
{
    match kind {
        Kind::Store => !is_conditional(note),
        _ => false,
    }
}

/// Why an operation of a kind may not depend in some way on one of a kind with a note.
fn depends_wrong(kind: Kind, on: Kind, note: Note, how: DependencyKind) -> Option<LogReason>
    ensures { result ≡ depends_wrong kind on note how }
{
    if matches!(kind, Kind::Fence) || matches!(on, Kind::Fence) {
        return Some(LogReason::FenceNamed);
    }
    if gives_nothing(on, note) {
        return Some(LogReason::GivesNothing);
    }
    if matches!(how, DependencyKind::Data) && is_load(kind) {
        return Some(LogReason::DataOfLoad);
    }
    None
}

impl<A: Allocator + Copy> Log<A> {
    /// Takes the operation, the one that it depends on, and how, of a `depends` line.
    pub(crate) fn take_depends(&mut self, values: &[&[u8]]) -> Result<(), LogReason>
        ensures { Makes (LogReason.Line LineReason.Memory) (log_so_far self.new) result
            (after_depends_line (log_so_far self.old) (map (λ value. value.now) values.now)) }
    {
        match values {
            [processor, index, on, other, kind] => {
                if *on != b"on".as_slice() {
                    return Err(LogReason::NotOn);
                }
                let Some(how) = dependency_named(kind) else {
                    return Err(LogReason::NotDependency);
                };
                let (p, index) = two_numbers(1, processor, index)?;
                let other = number_at(4, other)?;
                self.add_dependency(p, index, other, how)
            }
            _ => Err(LogReason::WordCount(LogKeyword::Depends)),
        }
    }

    /// An operation of a processor depends on another one.
    fn add_dependency(
        &mut self,
        p: u128,
        index: u128,
        other: u128,
        kind: DependencyKind,
    ) -> Result<(), LogReason>
        ensures { Makes (LogReason.Line LineReason.Memory) (log_so_far self.new) result
            (add_dependency (log_so_far self.old) p index other kind) }
    {
        let p = self.head.processor(p)?;
        let operation = self.number_made(p as usize, index)?;
        let on = self.number_made(p as usize, other)?;
        if other >= index {
            return Err(LogReason::NotBehind);
        }
        let dependency = Dependency {
            on,
            operation,
            kind,
        };
        if let Some(reason) = self.dependency_wrong(dependency) {
            return Err(reason);
        }
        match self.dependencies.push(dependency) {
            Ok(()) => Ok(()),
            Err(_) => Err(LogReason::Line(LineReason::Memory)),
        }
    }

    /// The number of the operation of a processor below 4096 at an index, from 0.
    fn number_made(&self, p: usize, index: u128) -> Result<usize, LogReason>
        ensures { result ≡ number_made (log_so_far self.now) p index }
    {
        let row = self.rows.row(p);
        let too_few = LogReason::NotMade(row.len());
        match number_at_index(row, index) {
            None => Err(too_few),
            Some(number) => Ok(number),
        }
    }

    /// Why there is no such dependency.
    fn dependency_wrong(&self, dependency: Dependency) -> Option<LogReason>
        ensures { result ≡ dependency_wrong (log_so_far self.now) dependency }
    {
        let kind = kind_of_step(logged_at(&self.made, dependency.operation).operation);
        let on = kind_of_step(logged_at(&self.made, dependency.on).operation);
        depends_wrong(kind, on, self.note_by(dependency.on), dependency.kind)
    }

    /// The note of the operation of a number, with its pair by number.
    pub(crate) fn note_by(&self, number: usize) -> Note
        ensures { result ≡ note_by (log_so_far self.now) number }
    {
        self.notes.get(&number).copied().unwrap_or(note_of(&[], 0))
    }
}
