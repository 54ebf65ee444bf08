ghost use Rattle.std.specs.Prelude.{◌≡◌, [], IfOk, IsTrue, Ok, map};
ghost use Rattle.std.specs.Str.Lines.{lines};
ghost use Rattle.machine_parts.specs.Core.{Load};
ghost use Rattle.machine_parts.specs.Machine.{shown};
ghost use Rattle.machine_core.specs.Loading.{HasLoaded, load_by};
ghost use Rattle.machine_asked.specs.Asked.{has_spin};
ghost use Rattle.machine_asked.specs.Opened.{IsBuiltTo, IsOpened};

use crate::asked::AskedMachine;
use itoa::Buffer;
use machine_core::Machine;
use std::alloc::{AllocError, Allocator, Global};
use torus::Torus;

/// A machine that is opened by numbers, and the machine text of which it was loaded, with no scripts.
#[derive(Drop)]
pub struct OpenedMachine<A: Allocator = Global> {
    pub machine: AskedMachine<A>,
    pub text: Vec<u8, A>,
}

/// Writes a number behind a space.
fn put_number<A: Allocator>(text: &mut Vec<u8, A>, number: u64) -> Result<(), AllocError> {
    let mut buffer = Buffer::new();
    text.push(b' ')?;
    text.extend_from_slice(buffer.format(number).as_bytes())
}

/// Writes the lines that say the shape of a torus.
fn put_torus<A: Allocator>(text: &mut Vec<u8, A>, torus: &Torus) -> Result<(), AllocError> {
    text.extend_from_slice(b"radix")?;
    for dim in 0..torus.dims() {
        put_number(text, u64::from(torus.radix_of(dim)))?;
    }
    text.extend_from_slice(b"\ndims")?;
    put_number(text, u64::from(torus.dims()))?;
    text.extend_from_slice(b"\ndateline")?;
    for dim in 0..torus.dims() {
        put_number(text, u64::from(torus.dateline_of(dim)))?;
    }
    Ok(())
}

/// Writes a line for each opening word that isn't 0.
fn put_words<A: Allocator>(text: &mut Vec<u8, A>, opening: &[u64]) -> Result<(), AllocError> {
    let mut address = 0;
    for word in opening {
        if *word != 0 {
            text.extend_from_slice(b"\ninit")?;
            put_number(text, address)?;
            put_number(text, *word)?;
        }
        address = address.saturating_add(1);
    }
    Ok(())
}

/// The machine text of these numbers. What is read of it is compared with them, so nothing is promised of it.
fn machine_text<A: Allocator + Copy>(
    alloc: A,
    torus: &Torus,
    depth: u32,
    tags: u32,
    opening: &[u64],
) -> Result<Vec<u8, A>, AllocError> {
    let mut text = Vec::new(alloc);
    put_torus(&mut text, torus)?;
    text.extend_from_slice(b"\ndepth")?;
    put_number(&mut text, u64::from(depth))?;
    text.extend_from_slice(b"\ntags")?;
    put_number(&mut text, u64::from(tags))?;
    text.extend_from_slice(b"\nwords")?;
    put_number(&mut text, opening.len() as u64)?;
    put_words(&mut text, opening)?;
    text.push(b'\n')?;
    Ok(text)
}

/// Whether a machine opened with these words.
fn opened_with<A: Allocator>(machine: &Machine<A>, opening: &[u64]) -> bool
    ensures { IsTrue result → machine.now.opening ≡ opening.now }
{
    if machine.words() as usize != opening.len() {
        return false;
    }
    for address in 0..machine.words() {
        if machine.opening(address) != Some(opening[address as usize]) {
            return false;
        }
    }
    true
}

/// Whether two toruses have the same radices and datelines.
fn are_alike(one: &Torus, other: &Torus) -> bool
    ensures { IsTrue result → one.now ≡ other.now }
{
    let dims = one.dims();
    let others = other.dims();
    if dims != others {
        return false;
    }
    for dim in 0..dims {
        if one.radix_of(dim) != other.radix_of(dim) {
            return false;
        }
        if one.dateline_of(dim) != other.dateline_of(dim) {
            return false;
        }
    }
    true
}

/// Whether a machine is built to these numbers.
fn is_built<A: Allocator>(
    machine: &AskedMachine<A>,
    torus: &Torus,
    depth: u32,
    tags: u32,
    opening: &[u64],
) -> bool
    ensures { IsTrue result → IsBuiltTo torus.now depth tags opening.now machine.now.core }
{
    if !are_alike(machine.machine().torus(), torus) {
        return false;
    }
    if machine.depth() != depth {
        return false;
    }
    if machine.tags() != tags {
        return false;
    }
    opened_with(machine.machine(), opening)
}

/// The words of a machine, by address.
fn words_of<A: Allocator + Copy, B: Allocator>(
    alloc: A,
    machine: &Machine<B>,
) -> Result<Vec<u64, A>, AllocError>
    ensures { IfOk result (λ words. words.items ≡ (shown machine.now).memory) }
{
    let mut words = Vec::new(alloc);
    for address in 0..machine.words() {
        match machine.word(address) {
            Some(word) => words.push(word)?,
            None => return Ok(words),
        }
    }
    Ok(words)
}

impl<A: Allocator + Copy> AskedMachine<A> {
    /// A machine of this torus, with channels of so many flits (1 to 8), so many tags (1 to 16) and these
    /// opening words (1 to 65536). It has made no step, and no processor has a line.
    ///
    /// Errors: out of memory; or a number is out of its range.
    pub fn open(
        alloc: A,
        torus: Torus,
        depth: u32,
        tags: u32,
        opening: &[u64],
    ) -> Result<AskedMachine<A>, AllocError>
        ensures { IfOk result (IsOpened torus depth tags opening.now) }
    {
        let opened = AskedMachine::open_with_text(alloc, torus, depth, tags, opening)?;
        let OpenedMachine {
            machine,
            text: _text,
        } = opened;
        Ok(machine)
    }

    /// Opens the same machine, and answers it with the machine text of which it was loaded.
    ///
    /// Errors: as of `open`.
    pub fn open_with_text(
        alloc: A,
        torus: Torus,
        depth: u32,
        tags: u32,
        opening: &[u64],
    ) -> Result<OpenedMachine<A>, AllocError>
        ensures opened { IfOk result (λ o. IsOpened torus depth tags opening.now o.machine) }
        ensures loaded { IfOk result
            (λ o. HasLoaded (load_by (lines o.text.items) (lines [])) o.machine.core) }
        ensures spins { IfOk result
            (λ o. (l : Load) → load_by (lines o.text.items) (lines []) ≡ Ok l
            → o.machine.spins ≡ map has_spin l.scripts) }
    {
        let text = machine_text(alloc, &torus, depth, tags, opening)?;
        let Ok(machine) = AskedMachine::load(alloc, text.as_slice(), b"") else {
            return Err(AllocError);
        };
        if is_built(&machine, &torus, depth, tags, opening) {
            Ok(OpenedMachine { machine, text })
        } else {
            Err(AllocError)
        }
    }

    /// A machine that goes on where this one stands: of the same shape, with the words of this one as its
    /// opening words. It has made no step, and no processor has a line.
    ///
    /// Errors: out of memory.
    pub fn reopened(&self, alloc: A) -> Result<AskedMachine<A>, AllocError>
        ensures { IfOk result (IsOpened self.now.core.shape self.now.core.depth self.now.core.tags
            (shown self.now.core).memory) }
    {
        let opened = self.reopened_with_text(alloc)?;
        let OpenedMachine {
            machine,
            text: _text,
        } = opened;
        Ok(machine)
    }

    /// Opens the same machine, and answers it with the machine text of which it was loaded.
    ///
    /// Errors: out of memory.
    pub fn reopened_with_text(&self, alloc: A) -> Result<OpenedMachine<A>, AllocError>
        ensures opened { IfOk result (λ o. IsOpened self.now.core.shape self.now.core.depth
            self.now.core.tags (shown self.now.core).memory o.machine) }
        ensures loaded { IfOk result
            (λ o. HasLoaded (load_by (lines o.text.items) (lines [])) o.machine.core) }
        ensures spins { IfOk result
            (λ o. (l : Load) → load_by (lines o.text.items) (lines []) ≡ Ok l
            → o.machine.spins ≡ map has_spin l.scripts) }
    {
        let words = words_of(alloc, self.machine())?;
        let torus = *self.machine().torus();
        AskedMachine::open_with_text(alloc, torus, self.depth(), self.tags(), words.as_slice())
    }
}
