//! Laws of routes, each the contract of a function that does nothing.

ghost use Rattle.std.specs.Prelude.{◌≡◌, ◌≢◌, ◌+◌, ◌<◌, ◌≤◌, ◌↔◌, ℕ, Bool, List, [], ◌∷◌, ◌++◌, length, All};
ghost use Rattle.std.specs.List.{AllPairs, AllAdjacentBelow};
ghost use Rattle.torus.specs.Shape.{Shape, IsAccepted, tiles_of, radix_of, one_hop};
ghost use Rattle.torus.specs.declared.shape.Class.{Class};
ghost use Rattle.torus.specs.declared.shape.Dir.{Dir};
ghost use Rattle.torus.specs.declared.shape.Dir.TheVariants.{Minus};
ghost use Rattle.dateline_route.specs.declared.channel.Channel.{Channel};
ghost use Rattle.dateline_route.specs.declared.channel.Kind.TheVariants.{Injection, Hop, Ejection};
ghost use Rattle.dateline_route.specs.Ring.{hops_by, shorter_way, digit_after};
ghost use Rattle.dateline_route.specs.Route.{route_of};
ghost use Rattle.dateline_route.specs.Walk.{IsWalk, IsChannel, IsHop, LeadsTo, Follows};

/// Walked from the source, `next` gives the route, and no other list.
pub fn next_walks_the_route()
    ensures { (s : Shape) → IsAccepted s → (src dst : ℕ) → src < tiles_of s → dst < tiles_of s
        → (class : Class) (xs : List Channel)
        → (IsWalk s src dst class xs ↔ (xs ≡ route_of s src dst class)) }
{}

/// A route goes from the injection of its source, by hops alone, to the ejection of its
/// destination. Its channels are channels of the torus, all of its class, and each leads to the tile
/// of the next.
pub fn routes_join_their_ends()
    ensures ends { (s : Shape) → IsAccepted s → (src dst : ℕ) → src < tiles_of s → dst < tiles_of s
        → (class : Class)
        → (hops : List Channel) × All (λ x. IsHop x.kind) hops
        × (route_of s src dst class
        ≡ record { tile = src; class = class; kind = Injection } ∷ hops
        ++ record { tile = dst; class = class; kind = Ejection } ∷ []) }
    ensures class { (s : Shape) → IsAccepted s → (src dst : ℕ) → src < tiles_of s → dst < tiles_of s
        → (class : Class)
        → All (λ x. x.class ≡ class) (route_of s src dst class) }
    ensures channels { (s : Shape) → IsAccepted s → (src dst : ℕ) → src < tiles_of s
        → dst < tiles_of s → (class : Class)
        → All (IsChannel s) (route_of s src dst class) }
    ensures meet { (s : Shape) → IsAccepted s → (src dst : ℕ) → src < tiles_of s → dst < tiles_of s
        → (class : Class)
        → AllAdjacentBelow (λ x y. LeadsTo s x.tile x.kind y.tile) (route_of s src dst class)
        (length (route_of s src dst class)) }
{}

/// Each next channel of a route is the choice of the router to which the one before leads, made from
/// its tile, the input by which the packet comes and the destination alone.
pub fn routers_choose_the_route()
    ensures { (s : Shape) → IsAccepted s → (src dst : ℕ) → src < tiles_of s → dst < tiles_of s
        → (class : Class)
        → AllAdjacentBelow (Follows s dst) (route_of s src dst class)
        (length (route_of s src dst class)) }
{}

/// A channel that leads to a tile's router and a channel that leaves that router are different ones.
pub fn inputs_and_outputs_differ()
    ensures { (s : Shape) → IsAccepted s → (x y : Channel) → IsChannel s x
        → LeadsTo s x.tile x.kind y.tile → y.kind ≢ Injection → x ≢ y }
{}

/// In a dimension of radix 2 both directions lead to the same tile and a tie goes plus: no route takes
/// a minus channel there.
pub fn rings_of_two_tiles_go_plus()
    ensures { (s : Shape) → IsAccepted s → (src dst : ℕ) (class : Class) (d : ℕ) (bit : Bool)
        → radix_of s d ≡ 2
        → All (λ x. x.kind ≢ Hop d Minus bit) (route_of s src dst class) }
{}

/// On a ring of k digits the hops of a dimension lead from digit to digit; they bring digit x to digit y,
/// and no fewer hops do so in either direction.
pub fn hops_are_fewest()
    ensures first { (dir : Dir) (k x : ℕ) → x < k → digit_after dir k x 0 ≡ x }
    ensures next { (dir : Dir) (k x i : ℕ) → x < k → i < k
        → digit_after dir k x (i + 1) ≡ one_hop dir k (digit_after dir k x i) }
    ensures leads { (k x y : ℕ) → x < k → y < k
        → digit_after (shorter_way k x y) k x (hops_by (shorter_way k x y) k x y) ≡ y }
    ensures least { (dir : Dir) (k x y i : ℕ) → x < k → y < k → i < k → digit_after dir k x i ≡ y
        → hops_by (shorter_way k x y) k x y ≤ i }
{}

/// A route has at most 10 channels, and none of them twice.
pub fn routes_are_short()
    ensures length { (s : Shape) → IsAccepted s → (src dst : ℕ) → src < tiles_of s
        → dst < tiles_of s → (class : Class)
        → length (route_of s src dst class) ≤ 10 }
    ensures distinct { (s : Shape) → IsAccepted s → (src dst : ℕ) → src < tiles_of s
        → dst < tiles_of s → (class : Class)
        → AllPairs (λ x y. x ≢ y) (route_of s src dst class) }
{}
