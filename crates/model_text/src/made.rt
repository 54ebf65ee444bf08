//! Operations that processors made.

ghost use Rattle.std.specs.Prelude.{◌≡◌, map};
ghost use Rattle.lexer.specs.Outcome.{Makes};
ghost use Rattle.model_text.specs.Made.{after_made_line, made_read, add_operation, with_address};
ghost use Rattle.model_text.specs.Made.{add_step, step_read};
ghost use Rattle.model_text.specs.Made.{add_logged, number_of_address};
ghost use Rattle.model_text.specs.Views.{log_so_far};

use crate::annotation::{Annotation, behind_operands, operands, step_annotation};
use crate::form::spelled_step;
use crate::log::Log;
use crate::logged::{Logged, Source};
use crate::noted::address_in;
use crate::reason::{LogKeyword, LogReason};
use packet::Operation;
use std::alloc::Allocator;
use trace_lines::{Form, LineReason, number_at};

impl<A: Allocator + Copy> Log<A> {
    /// Takes the processor and the operation of a `made` line.
    pub(crate) fn take_made(
        &mut self,
        alloc: A,
        line: u64,
        values: &[&[u8]],
    ) -> Result<(), LogReason>
        ensures { Makes (LogReason.Line LineReason.Memory) (log_so_far self.new) result
            (after_made_line (log_so_far self.old) line (map (λ value. value.now) values.now)) }
    {
        match values {
            [processor, word, words @ ..] => {
                let p = number_at(1, processor)?;
                self.take_step(alloc, line, p, word, words)
            }
            _ => Err(LogReason::WordCount(LogKeyword::Made)),
        }
    }

    /// Takes what stands behind the processor of a `made` line.
    fn take_step(
        &mut self,
        alloc: A,
        line: u64,
        p: u128,
        word: &[u8],
        words: &[&[u8]],
    ) -> Result<(), LogReason>
        ensures { Makes (LogReason.Line LineReason.Memory) (log_so_far self.new) result
            (step_read (log_so_far self.old) line p word.now
            (map (λ word. word.now) words.now)) }
    {
        let step = spelled_step(word, operands(word, words))?;
        let annotation = step_annotation(step, behind_operands(word, words))?;
        self.made(alloc, line, p, step, annotation)
    }

    /// A processor made an operation or a fence.
    fn made(
        &mut self,
        alloc: A,
        line: u64,
        p: u128,
        step: Option<Form>,
        annotation: Option<Annotation>,
    ) -> Result<(), LogReason>
        ensures { Makes (LogReason.Line LineReason.Memory) (log_so_far self.new) result
            (made_read (log_so_far self.old) line p step annotation) }
    {
        let p = self.head.processor(p)?;
        let number = self.made.len();
        self.add_step(alloc, line, p, step)?;
        self.annotate_if(p, number, address_in(step), annotation)
    }

    /// Adds an operation or a fence of a processor below 4096.
    fn add_step(&mut self, alloc: A, line: u64, p: u32, step: Option<Form>) -> Result<(), LogReason>
        ensures { Makes (LogReason.Line LineReason.Memory) (log_so_far self.new) result
            (add_step (log_so_far self.old) line p step) }
    {
        match step {
            None => self.add_logged(Logged {
                line,
                processor: p,
                operation: None,
                word: 0,
                source: Source::Own,
                told: None,
            }),
            Some(form) => {
                let operation = form.operation(self.head.words())?;
                self.add_operation(alloc, line, p, operation)
            }
        }
    }

    /// Adds an operation, whose address is below the number of words.
    pub fn add_operation(
        &mut self,
        alloc: A,
        line: u64,
        p: u32,
        operation: Operation,
    ) -> Result<(), LogReason>
        ensures { Makes (LogReason.Line LineReason.Memory) (log_so_far self.new) result
            (add_operation (log_so_far self.old) line p operation) }
    {
        self.place(alloc, operation.address)?;
        let word = self.number_of_address(operation.address);
        self.add_logged(Logged {
            line,
            processor: p,
            operation: Some(operation),
            word,
            source: Source::Untold,
            told: None,
        })
    }

    /// The number of an address among those that occur; 0 where it has none.
    pub(crate) fn number_of_address(&self, address: u32) -> usize
        ensures { result ≡ number_of_address (log_so_far self.now) address }
    {
        self.places.get(&address).copied().unwrap_or(0)
    }

    /// Gives an address a number, where it has none.
    pub(crate) fn place(&mut self, alloc: A, address: u32) -> Result<(), LogReason>
        ensures { Makes (LogReason.Line LineReason.Memory) (log_so_far self.new) result
            (with_address (log_so_far self.old) address) }
    {
        if self.places.contains_key(&address) {
            return Ok(());
        }
        let place = self.addresses.len();
        if place >= 1 << 20 {
            return Err(LogReason::AddressesLimits);
        }
        if self.places.insert(address, place).is_err() {
            return Err(LogReason::Line(LineReason::Memory));
        }
        if self.addresses.push(address).is_err() {
            return Err(LogReason::Line(LineReason::Memory));
        }
        match self.orders.begin(alloc) {
            Ok(()) => Ok(()),
            Err(_) => Err(LogReason::Line(LineReason::Memory)),
        }
    }

    /// Adds an operation, or a fence, to those that are made.
    pub fn add_logged(&mut self, logged: Logged) -> Result<(), LogReason>
        ensures { Makes (LogReason.Line LineReason.Memory) (log_so_far self.new) result
            (add_logged (log_so_far self.old) logged) }
    {
        let number = self.made.len();
        if number >= 1 << 22 {
            return Err(LogReason::OperationsLimits);
        }
        if self.rows.add(logged.processor as usize, number).is_err() {
            return Err(LogReason::Line(LineReason::Memory));
        }
        match self.made.push(logged) {
            Ok(()) => Ok(()),
            Err(_) => Err(LogReason::Line(LineReason::Memory)),
        }
    }
}
