//! Laws of banks, each the contract of a function that does nothing.

ghost use Rattle.std.specs.Prelude.{◌≡◌, ◌<◌, ◌≤◌, ◌%◌, ◌++◌, [], ◌∷◌, ℕ, List, Some, IfSome, length, replicate};
ghost use Rattle.std.specs.Prelude.{slice_index};
ghost use Rattle.torus.specs.Shape.{Shape, tiles_of, home_of};
ghost use Rattle.torus.specs.declared.step.Choice.{Choice};
ghost use Rattle.torus.specs.declared.step.Choice.TheVariants as choices;
ghost use Rattle.packet.specs.declared.assembler.Offered.TheVariants.{Whole};
ghost use Rattle.packet.specs.declared.kinds.Packet.TheVariants as packet;
ghost use Rattle.packet.specs.declared.kinds.Request.{Request};
ghost use Rattle.packet.specs.Flits.{offered};
ghost use Rattle.packet.specs.Spelling.{Spells};
ghost use Rattle.channel_number.specs.Order.{channel_count};
ghost use Rattle.flit_buffer.specs.Places.{empty_ring};
ghost use Rattle.flit_buffer.specs.Surroundings.{Surroundings, Wiring, IsPossible, IsWired, ports_of, agent_step};
ghost use Rattle.flit_buffer.specs.declared.want.Want.{Want};
ghost use Rattle.home_bank.specs.declared.entry.Entry.{Entry};
ghost use Rattle.home_bank.specs.ServiceList.{address_of};
ghost use Rattle.home_bank.specs.BankTable.{BankState as State, bank_wants, bank_after as state_after};
ghost use Rattle.home_bank.specs.BankAgent.{NamesWord};
ghost use Rattle.home_bank.specs.Beginning.{bank_wiring, empty_bank, bank_ports};
ghost use Rattle.home_bank.specs.Reach.{IsBankState};
ghost use Rattle.home_bank.specs.MemoryReplay.{ReplayInMemory};

/// The address of a word of a tile's bank is at home there.
pub fn words_are_at_home()
    ensures { (s : Shape) (tile w : ℕ) → tile < tiles_of s
        → home_of s (address_of tile (tiles_of s) w) ≡ (tile, w) }
{}

/// A bank wants no port that isn't there, only words of the memory that are there, and to put no 0: in
/// the state in which it begins, and in each that follows by granted wants, where each request that
/// it takes is for a word that is there.
pub fn wanted_ports_are_there()
    ensures possible { (tiles tile words : ℕ) (b : State) (choice : Choice) (want : Want)
        (around : Surroundings) (wiring : Wiring)
        → IsBankState tiles tile words b
        → length wiring.inputs ≡ 1 → length wiring.outputs ≡ 1 → words ≤ length around.words
        → bank_wants tiles tile b choice ≡ Some want → IsPossible around wiring want }
    ensures start { (tiles tile words : ℕ) → IsBankState tiles tile words empty_bank }
    ensures kept { (tiles tile words : ℕ) (b : State) (choice : Choice) (want : Want) (learned : ℕ)
        → IsBankState tiles tile words b
        → ((r : Request) → choice ≡ choices.Take
        → offered b.so_far learned ≡ Whole (packet.Request r)
        → address_of tile tiles r.word < words)
        → IsBankState tiles tile words (state_after tiles tile b choice want learned) }
{}

/// The ports of a new bank are those over empty channels, whatever the words behind them are, and
/// its channels are there.
pub fn new_banks_see_empty_channels()
    ensures ports { (s : Shape) (t depth : ℕ) (words : List ℕ) → t < tiles_of s → 0 < depth
        → bank_ports s t depth ≡ ports_of depth
        (record { rings = replicate (channel_count s) (empty_ring depth); words = words })
        (bank_wiring s t) }
    ensures wired { (s : Shape) (t : ℕ) → t < tiles_of s
        → IsWired (channel_count s) (bank_wiring s t) }
{}

/// Every flit of a request for a word below 65536 is one that a bank may take.
pub fn request_flits_are_acceptable()
    ensures { (r : Request) (so_far more : List ℕ) (flit : ℕ) → r.word < 65536
        → Spells (packet.Request r) (so_far ++ flit ∷ more) → NamesWord flit }
{}

/// The entries of a bank whose words stand among those of all banks replay on the whole memory: in
/// the beginning, after each step of the bank, where the request that waits is for a word of the
/// memory, and after whatever leaves the words at the bank's addresses.
pub fn entries_replay_in_memory()
    ensures start { (tiles tile : ℕ) (opening more : List ℕ)
        → ReplayInMemory tiles tile opening (opening ++ more) [] }
    ensures steps { (tiles tile depth : ℕ) (wiring : Wiring) (opening : List ℕ) (b next : State)
        (around left : Surroundings) (choice : Choice) → tile < tiles
        → IfSome b.waiting (λ r. address_of tile tiles r.word < length opening)
        → ReplayInMemory tiles tile opening around.words b.entries
        → agent_step (bank_wants tiles tile) (state_after tiles tile) depth wiring b around choice
        ≡ Some (next, left)
        → ReplayInMemory tiles tile opening left.words next.entries }
    ensures others { (tiles tile : ℕ) (opening words left : List ℕ) (entries : List Entry)
        → ReplayInMemory tiles tile opening words entries → length words ≤ length left
        → ((a : ℕ) → a < length opening → a % tiles ≡ tile
        → slice_index left a ≡ slice_index words a)
        → ReplayInMemory tiles tile opening left entries }
{}
