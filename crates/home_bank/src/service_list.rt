ghost use Rattle.std.specs.Prelude.{◌≡◌, ◌<◌, ◌≤◌, ◌+◌, ◌-◌, [], ◌∷◌, ◌++◌, ◌↔◌, length, vec_len, vec_capacity, IfOk};
ghost use Rattle.std.specs.Prelude.{IsTrue, OnOk, OnErr};
ghost use Rattle.home_bank.specs.ServiceList.{address_of, response_of, recorded, services_with_room, IsServiceList};

use crate::Entry;
use packet::{Reply, Request, Response};
use std::alloc::{AllocError, Allocator, Global};
use std::marker::Model;

/// The service list of a bank: an entry for each service, in their order. It knows no words.
#[derive(Drop)]
pub struct ServiceList<A: Allocator = Global> {
    tile: u32,
    tiles: u32,
    entries: Vec<Entry, A>,
    room: usize,
}

impl<A: Allocator> Model for ServiceList<A> {
    ghost use Rattle.home_bank.specs.ServiceList.{Services};

    ghost Value = { Services };

    ghost use Rattle.home_bank.specs.Inside.{services_of, IsReserved};

    ghost view = { services_of };

    ghost invariant = { IsReserved };
}

impl<A: Allocator> ServiceList<A> {
    /// An empty service list of the bank of a tile, among that many tiles (1 to 64). It takes the
    /// memory for `room` entries (at most 65536), and none later.
    pub fn new(alloc: A, tile: u32, tiles: u32, room: usize) -> Result<ServiceList<A>, AllocError>
        requires tile { tile < tiles }
        requires tiles { tiles ≤ 64 }
        requires room { room ≤ 65536 }
        ensures { IfOk result
            (λ h. h ≡ record { tile = tile; tiles = tiles; entries = []; room = room }) }
    {
        let entries = Vec::with_capacity(alloc, room)?;
        Ok(ServiceList {
            tile,
            tiles,
            entries,
            room,
        })
    }

    /// Adds the entry of a service, and gives the packet that answers its request.
    pub fn record(&mut self, request: Request, reply: Reply) -> Response
        requires word { request.word < 65536 }
        requires room { length self.old.entries < self.old.room }
        ensures services { self.new ≡ recorded self.old request reply }
        ensures response { result
            ≡ response_of self.old.tile (length self.old.entries) request reply }
    {
        let place = self.entries.len() as u32;
        let entry = Entry {
            source: request.source,
            tag: request.tag,
            address: self.address_of(request.word),
            op: request.op,
            reply,
        };
        push_within(&mut self.entries, entry);
        Response {
            destination: request.source,
            source: self.tile,
            tag: request.tag,
            place,
            code: request.op.code(),
            reply,
        }
    }

    /// Makes room for so many entries more, at most 65536 in all.
    ///
    /// Errors: out of memory; then nothing has changed.
    pub fn reserve(&mut self, more: usize) -> Result<(), AllocError>
        requires { self.old.room + more ≤ 65536 }
        ensures room { OnOk result (self.new ≡ services_with_room self.old (self.old.room + more)) }
        ensures same { OnErr result (self.new ≡ self.old) }
    {
        let room = self.room + more;
        self.entries.try_reserve(room - self.entries.len())?;
        self.room = room;
        Ok(())
    }

    /// Gives up the room for so many entries, which no entry has taken.
    pub fn release(&mut self, fewer: usize)
        requires { length self.old.entries + fewer ≤ self.old.room }
        ensures { self.new ≡ services_with_room self.old (self.old.room - fewer) }
    {
        self.room -= fewer;
    }

    /// For how many entries there is room.
    pub fn room(&self) -> usize
        ensures { result ≡ self.now.room }
    {
        self.room
    }

    /// The address of one of the bank's words.
    pub fn address_of(&self, word: u32) -> u32
        requires { word < 65536 }
        ensures { result ≡ address_of self.now.tile self.now.tiles word }
    {
        word * self.tiles + self.tile
    }

    /// The tile whose bank's services they are.
    pub fn tile(&self) -> u32
        ensures tile { result ≡ self.now.tile }
        ensures limits { IsServiceList self.now }
    {
        self.tile
    }

    /// The entries, in the order of the services.
    pub fn entries(&self) -> &[Entry]
        ensures { result.now ≡ self.now.entries }
    {
        self.entries.as_slice()
    }

    /// Whether there is room for no further entry.
    pub fn is_full(&self) -> bool
        ensures { IsTrue result ↔ (length self.now.entries ≡ self.now.room) }
    {
        self.entries.len() == self.room
    }
}

/// Adds an element where there is room for it.
fn push_within<T: Drop, A: Allocator>(items: &mut Vec<T, A>, item: T)
    requires { vec_len items.old < vec_capacity items.old }
    ensures items { items.new.items ≡ items.old.items ++ item ∷ [] }
    ensures capacity { vec_capacity items.old ≤ vec_capacity items.new }
{
    let _ = items.push(item);
}
