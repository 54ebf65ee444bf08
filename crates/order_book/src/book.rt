ghost use Rattle.std.specs.Prelude.{◌≡◌, ℕ, ◌<◌, ◌≤◌, List, [], ◌∷◌, ◌++◌, Some, IfOk, length, map};
ghost use Rattle.std.specs.Prelude.{replicate};
ghost use Rattle.std.specs.Prelude.{slice_get, slice_index, vec_len, vec_capacity, OnOk};
ghost use Rattle.one_order.specs.Observed.{list_at};
ghost use Rattle.one_order.specs.EventBook.{first_book, noted_issue, noted_service, noted_answer};
ghost use Rattle.one_order.specs.EventBook.{row_at};
ghost use Rattle.order_book.specs.RoomyBook.{KeepsRoom};

use one_order::Ordered;
use std::alloc::{AllocError, Allocator, Global};
use std::marker::Model;

/// The book of events of a machine: how many have happened, the number of each issue, where the row
/// of each service stands, and the rows of the one legal order. All its memory is taken at first;
/// each event is noted in a constant number of steps.
#[derive(Drop)]
pub struct EventBook<A: Allocator = Global> {
    events: u32,
    issues: Vec<Vec<u32, A>, A>,
    positions: Vec<Vec<u32, A>, A>,
    rows: Vec<Ordered, A>,
}

impl<A: Allocator> Model for EventBook<A> {
    ghost use Rattle.order_book.specs.RoomyBook.{RoomyBook};

    ghost Value = { RoomyBook };

    ghost use Rattle.order_book.specs.Inside.{roomy_of};

    ghost view = { roomy_of };
}

impl<A: Allocator + Copy> EventBook<A> {
    /// The book before any event, of as many processors as banks, at most 64: with room for so many
    /// issues of each processor, so many services of each bank, and so many rows, each at most
    /// 65536. No event takes memory while there is room.
    pub fn new(
        alloc: A,
        issue_rooms: &[usize],
        position_rooms: &[usize],
        row_room: usize,
    ) -> Result<EventBook<A>, AllocError>
        requires tiles { length issue_rooms.now ≤ 64 }
        requires same { length position_rooms.now ≡ length issue_rooms.now }
        requires issues { (p room : ℕ) → slice_get issue_rooms.now p ≡ Some room → room ≤ 65536 }
        requires positions { (b room : ℕ) →
            slice_get position_rooms.now b ≡ Some room → room ≤ 65536 }
        requires rows { row_room ≤ 65536 }
        ensures book { IfOk result (λ kept. kept.book ≡ first_book (length issue_rooms.now)) }
        ensures processors { IfOk result (λ kept. length kept.issues ≡ length issue_rooms.now) }
        ensures banks { IfOk result (λ kept. length kept.positions ≡ length issue_rooms.now) }
        ensures issues { IfOk result
            (λ kept. (p room : ℕ) → slice_get issue_rooms.now p ≡ Some room
            → room ≤ slice_index kept.issues p) }
        ensures positions { IfOk result (λ kept.
            (b room : ℕ) → slice_get position_rooms.now b ≡ Some room
            → room ≤ slice_index kept.positions b) }
        ensures rows { IfOk result (λ kept. row_room ≤ kept.rows) }
    {
        let issues = empty_lists(alloc, issue_rooms)?;
        let positions = empty_lists(alloc, position_rooms)?;
        let rows = Vec::with_capacity(alloc, row_room)?;
        Ok(EventBook {
            events: 0,
            issues,
            positions,
            rows,
        })
    }
}

impl<A: Allocator> EventBook<A> {
    /// Notes that a processor has issued its next operation.
    pub fn note_issue(&mut self, processor: u32)
        requires processor { processor < length self.old.book.issues }
        requires room { length (list_at self.old.book.issues processor)
            < slice_index self.old.issues processor }
        requires events { self.old.book.events < 4294967295 }
        ensures book { self.new.book ≡ noted_issue processor self.old.book }
        ensures room { KeepsRoom self.old self.new }
    {
        self.events += 1;
        push_within(&mut self.issues[processor as usize], self.events);
    }

    /// Notes that a bank has served the operation of this index of a processor.
    pub fn note_service(&mut self, bank: u32, source: u32, index: u32)
        requires bank { bank < length self.old.book.positions }
        requires source { source < length self.old.book.issues }
        requires index { index < length (list_at self.old.book.issues source) }
        requires place { length (list_at self.old.book.positions bank)
            < slice_index self.old.positions bank }
        requires services { length (list_at self.old.book.positions bank) < 65536 }
        requires room { length self.old.book.rows < self.old.rows }
        requires rows { length self.old.book.rows < 65536 }
        requires events { self.old.book.events < 4294967295 }
        ensures book { self.new.book ≡ noted_service bank source index self.old.book }
        ensures room { KeepsRoom self.old self.new }
    {
        let issued = self.issues[source as usize][index as usize];
        let position = self.rows.len() as u32;
        let positions = &mut self.positions[bank as usize];
        let place = positions.len() as u32;
        push_within(positions, position);
        self.events += 1;
        let row = Ordered {
            bank,
            place,
            source,
            index,
            issued,
            served: self.events,
            answered: None,
        };
        push_within(&mut self.rows, row);
    }

    /// Notes that the operation of a service is answered: of this place among those of a bank.
    pub fn note_answer(&mut self, bank: u32, place: u32)
        requires bank { bank < length self.old.book.positions }
        requires place { place < length (list_at self.old.book.positions bank) }
        requires row { row_at bank place self.old.book < length self.old.book.rows }
        requires events { self.old.book.events < 4294967295 }
        ensures book { self.new.book ≡ noted_answer bank place self.old.book }
        ensures room { KeepsRoom self.old self.new }
    {
        let position = self.positions[bank as usize][place as usize];
        self.events += 1;
        self.rows[position as usize].answered = Some(self.events);
    }

    /// Makes room for so many issues of a processor in all, so many services of a bank, and so many
    /// rows; what is noted stays. No event takes memory while there is room.
    ///
    /// Errors: out of memory; then some of the room may be made.
    pub fn reserve(
        &mut self,
        processor: u32,
        issue_room: usize,
        bank: u32,
        position_room: usize,
        row_room: usize,
    ) -> Result<(), AllocError>
        requires processor { processor < length self.old.book.issues }
        requires bank { bank < length self.old.book.positions }
        ensures book { self.new.book ≡ self.old.book }
        ensures room { KeepsRoom self.old self.new }
        ensures issues { OnOk result (issue_room ≤ slice_index self.new.issues processor) }
        ensures positions { OnOk result (position_room ≤ slice_index self.new.positions bank) }
        ensures rows { OnOk result (row_room ≤ self.new.rows) }
    {
        reserve_at(&mut self.issues, processor as usize, issue_room)?;
        reserve_at(&mut self.positions, bank as usize, position_room)?;
        self.rows
            .try_reserve(row_room.saturating_sub(self.rows.len()))
    }

    /// How many events have happened.
    pub fn events(&self) -> u32
        ensures { result ≡ self.now.book.events }
    {
        self.events
    }

    /// The number of the issue of an operation of a processor; `None` where none is noted of it.
    #[inline(always)]
    pub fn issue(&self, processor: u32, index: u32) -> Option<u32>
        ensures { result ≡ slice_get (list_at self.now.book.issues processor) index }
    {
        let at = processor as usize;
        if at < self.issues.len() {
            self.issues[at].get(index as usize).copied()
        } else {
            None
        }
    }

    /// The rows of the order, in the order of the services.
    pub fn rows(&self) -> &[Ordered]
        ensures { result.now ≡ self.now.book.rows }
    {
        self.rows.as_slice()
    }
}

/// Empty lists, each with room for so many numbers.
fn empty_lists<A: Allocator + Copy>(
    alloc: A,
    rooms: &[usize],
) -> Result<Vec<Vec<u32, A>, A>, AllocError>
    requires count { length rooms.now ≤ 64 }
    requires each { (k room : ℕ) → slice_get rooms.now k ≡ Some room → room ≤ 65536 }
    ensures empty { IfOk result
        (λ lists. map (λ list. list.items) lists.items ≡ replicate (length rooms.now) []) }
    ensures room { IfOk result
        (λ lists. (k room : ℕ) → slice_get rooms.now k ≡ Some room
        → room ≤ slice_index (map (λ list. vec_capacity list) lists.items) k) }
{
    let mut lists = Vec::with_capacity(alloc, rooms.len())?;
    for room in rooms {
        lists.push(Vec::with_capacity(alloc, *room)?)?;
    }
    Ok(lists)
}

/// Makes room for so many numbers in one of some lists. What they hold stays, and none has less room.
fn reserve_at<A: Allocator>(
    lists: &mut Vec<Vec<u32, A>, A>,
    at: usize,
    room: usize,
) -> Result<(), AllocError>
    requires { at < length lists.old.items }
    ensures same { map (λ list. list.items) lists.new.items
        ≡ map (λ list. list.items) lists.old.items }
    ensures kept { (k : ℕ) → slice_index (map (λ list. vec_capacity list) lists.old.items) k
        ≤ slice_index (map (λ list. vec_capacity list) lists.new.items) k }
    ensures count { length (map (λ list. vec_capacity list) lists.new.items)
        ≡ length (map (λ list. vec_capacity list) lists.old.items) }
    ensures room { OnOk result
        (room ≤ slice_index (map (λ list. vec_capacity list) lists.new.items) at) }
{
    let list = &mut lists[at];
    list.try_reserve(room.saturating_sub(list.len()))
}

/// Adds an element where there is room for it.
fn push_within<T: Drop, A: Allocator>(items: &mut Vec<T, A>, item: T)
    requires { vec_len items.old < vec_capacity items.old }
    ensures items { items.new.items ≡ items.old.items ++ item ∷ [] }
    ensures capacity { vec_capacity items.old ≤ vec_capacity items.new }
{
    let _ = items.push(item);
}
