//! Laws of a router's table, each the contract of a function that does nothing.

ghost use Rattle.std.specs.Prelude.{◌≡◌, ◌≢◌, ◌<◌, ℕ, List, Some, length};
ghost use Rattle.torus.specs.Shape.{Shape, IsAccepted, dims_of, tiles_of};
ghost use Rattle.torus.specs.declared.step.Choice.{Choice};
ghost use Rattle.channel_number.specs.Order.{channel_count};
ghost use Rattle.channel_number.specs.Ports.{port_count};
ghost use Rattle.flit_buffer.specs.Surroundings.{Surroundings, Wiring, IsPossible, IsWired};
ghost use Rattle.flit_buffer.specs.Surroundings.{ports_of};
ghost use Rattle.flit_buffer.specs.declared.want.Want.{Want};
ghost use Rattle.flit_buffer.specs.declared.want.Want.TheVariants.{Take};
ghost use Rattle.router.specs.Table.{RouterState, empty_router, router_wants, router_after};
ghost use Rattle.router.specs.Beginning.{router_wiring, empty_surroundings, router_ports};
ghost use Rattle.router.specs.Reach.{IsRouterState};

/// A router wants no port that isn't there, no word, and to put no 0: in the state in which it begins,
/// and in each that follows by granted wants, where no flit that it takes is 0.
pub fn wanted_ports_are_there()
    ensures possible { (s : Shape) (tile : ℕ) (r : RouterState) (choice : Choice) (want : Want)
        (around : Surroundings) (wiring : Wiring)
        → IsRouterState (port_count (dims_of s)) r
        → length wiring.inputs ≡ port_count (dims_of s)
        → length wiring.outputs ≡ port_count (dims_of s)
        → router_wants s tile r choice ≡ Some want → IsPossible around wiring want }
    ensures start { (ports : ℕ) → IsRouterState ports (empty_router ports) }
    ensures kept { (s : Shape) (tile : ℕ) (r : RouterState) (choice : Choice) (want : Want)
        (learned : ℕ) → IsRouterState (port_count (dims_of s)) r
        → router_wants s tile r choice ≡ Some want → ((i : ℕ) → want ≡ Take i → learned ≢ 0)
        → IsRouterState (port_count (dims_of s)) (router_after r choice want learned) }
{}

/// The ports of a new router are those over empty channels, whatever the words behind them are. The
/// channels at its ports are there, and no two of its inputs are one channel, nor two outputs.
pub fn new_routers_see_empty_channels()
    ensures ports { (s : Shape) → IsAccepted s → (t depth : ℕ) (words : List ℕ) → t < tiles_of s
        → 0 < depth
        → router_ports s t depth ≡ ports_of depth (empty_surroundings s depth words)
        (router_wiring s t) }
    ensures wired { (s : Shape) → IsAccepted s → (t : ℕ) → t < tiles_of s
        → IsWired (channel_count s) (router_wiring s t) }
{}
