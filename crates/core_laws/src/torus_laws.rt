//! Laws of the network of a torus, each the contract of a function that does nothing.

ghost use Rattle.std.specs.Prelude.{◌≡◌, ◌<◌, ◌≤◌, ℕ, true, false, List, ◌∷◌, length};
ghost use Rattle.torus.specs.Shape.{Shape, IsAccepted, tiles_of, dims_of};
ghost use Rattle.torus.specs.declared.shape.Class.{Class};
ghost use Rattle.torus.specs.declared.shape.Class.TheVariants.{Request, Reply};
ghost use Rattle.dateline_route.specs.Next.{next_of};
ghost use Rattle.dateline_route.specs.Walk.{input_of};
ghost use Rattle.channel_number.specs.Order.{channel_at};
ghost use Rattle.channel_number.specs.Ports.{port_count, injection_channel, ejection_channel};
ghost use Rattle.channel_number.specs.Ports.{input_channel};
ghost use Rattle.channel_number.specs.Ports.{output_channel};
ghost use Rattle.channel_number.specs.Ports.{output_number, input_router, IsInput, HasInput};
ghost use Rattle.channel_number.specs.Ports.{IsOutput, HasOutput};
ghost use Rattle.packet.specs.declared.kinds.Packet.{Packet};
ghost use Rattle.packet.specs.Spelling.{Spells, source_of, destination_of};
ghost use Rattle.packet.specs.Flit.{field};
ghost use Rattle.wormhole.specs.Net.{IsNet, IsParcel};
ghost use Rattle.wormhole.specs.State.{NetState};
ghost use Rattle.wormhole.specs.Delivery.{IsRouted};
ghost use Rattle.core_laws.specs.TorusNet.{torus_net, torus_parcel};
ghost use Rattle.core_laws.specs.Ends.{IsInjection, IsEjection, AreTorusEnds};
ghost use Rattle.core_laws.specs.TorusHeads.{head_output};

/// Every accepted torus, of any depth of its channels, is a wormhole network: its routes go from
/// end to end, each channel the router's choice, and its numbers rise along them.
pub fn toruses_are_networks()
    ensures { (s : Shape) (depth : ℕ) → IsAccepted s → IsNet (torus_net s depth) }
{}

/// The flits that spell a packet between two tiles are a packet of the network.
pub fn spellings_are_parcels()
    ensures { (s : Shape) (depth : ℕ) (p : Packet) (index head : ℕ) (tail : List ℕ)
        → source_of p < tiles_of s → destination_of p < tiles_of s → Spells p (head ∷ tail)
        → IsParcel (torus_net s depth) (torus_parcel s p index head tail) }
{}

/// Each input of a router is at a channel of the network that leads to it, and each channel that
/// leads to a router is at one input; and so for the outputs.
pub fn routers_have_all_channels()
    ensures inputs { (s : Shape) (depth : ℕ) → IsAccepted s → (t i : ℕ) → t < tiles_of s
        → i < port_count (dims_of s)
        → IsInput s t i × ((torus_net s depth).ejects (input_channel s t i) ≡ false) }
    ensures each_input { (s : Shape) (depth : ℕ) → IsAccepted s → (x : ℕ)
        → x < (torus_net s depth).channels
        → (torus_net s depth).ejects x ≡ false → HasInput s x }
    ensures outputs { (s : Shape) (depth : ℕ) → IsAccepted s → (t o : ℕ) → t < tiles_of s
        → o < port_count (dims_of s)
        → IsOutput s t o × ((torus_net s depth).injects (output_channel s t o) ≡ false) }
    ensures each_output { (s : Shape) (depth : ℕ) → IsAccepted s → (x : ℕ)
        → x < (torus_net s depth).channels
        → (torus_net s depth).injects x ≡ false → HasOutput s x }
{}

/// The next channel of a packet is at the output that the router chooses for its destination, and a
/// head flit at an input of a router, of a packet that was sent, tells that output.
pub fn routers_choose_next_channels()
    ensures next { (s : Shape) (depth x dst : ℕ) (class : Class) → dst < tiles_of s
        → (torus_net s depth).next x (ejection_channel s dst class)
        ≡ output_channel s (input_router s x)
        (output_number (dims_of s) (channel_at s x).class
        (next_of s (input_router s x) (input_of (channel_at s x).kind) dst)) }
    ensures head { (s : Shape) (depth : ℕ) (st : NetState) (t i flit : ℕ) → IsAccepted s
        → t < tiles_of s → i < port_count (dims_of s)
        → IsRouted (torus_net s depth) st (input_channel s t i) flit
        → (field flit 51 6 < tiles_of s)
        × ((torus_net s depth).next (input_channel s t i) ((torus_net s depth).told flit)
        ≡ output_channel s t (head_output s t i flit)) }
{}

/// The injections and ejections of the network are those of its tiles, each tile's its own, and
/// replies are numbered above requests.
pub fn tiles_have_their_ends()
    ensures ends { (s : Shape) (depth t : ℕ) (class : Class) → t < tiles_of s
        → AreTorusEnds (torus_net s depth) s t class }
    ensures injections { (s : Shape) (depth x : ℕ) → x < (torus_net s depth).channels
        → (torus_net s depth).injects x ≡ true → IsInjection s x }
    ensures ejections { (s : Shape) (depth x : ℕ) → x < (torus_net s depth).channels
        → (torus_net s depth).ejects x ≡ true → IsEjection s x }
    ensures joined { (s : Shape) (depth src dst : ℕ) (class : Class) → src < tiles_of s
        → dst < tiles_of s
        → (torus_net s depth).joins (injection_channel s src class) (ejection_channel s dst class)
        ≡ true }
    ensures own_injection { (s : Shape) (t u : ℕ) (class other : Class) →
        t < tiles_of s → u < tiles_of s
        → injection_channel s t class ≡ injection_channel s u other → (t ≡ u) × (class ≡ other) }
    ensures own_ejection { (s : Shape) (t u : ℕ) (class other : Class) → t < tiles_of s
        → u < tiles_of s
        → ejection_channel s t class ≡ ejection_channel s u other → (t ≡ u) × (class ≡ other) }
    ensures above { (s : Shape) (depth t u : ℕ) → t < tiles_of s → u < tiles_of s
        → (torus_net s depth).number (ejection_channel s t Request)
        < (torus_net s depth).number (injection_channel s u Reply) }
{}

/// Packets go over at most 10 channels.
pub fn ways_are_short()
    ensures { (s : Shape) (depth i j : ℕ) → IsAccepted s
        → (torus_net s depth).joins i j ≡ true → length ((torus_net s depth).route i j) ≤ 10 }
{}
