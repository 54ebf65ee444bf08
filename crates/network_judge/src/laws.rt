//! Laws of networks that are written down as tables, each the contract of a function that does nothing.

ghost use Rattle.std.specs.Prelude.{◌≡◌, ◌⊎◌, ℕ, ◌<◌, true, List, ◌∷◌, ◌++◌};
ghost use Rattle.wormhole.specs.Net.{IsNet};
ghost use Rattle.network_judge.specs.declared.table.Why.{Why};
ghost use Rattle.network_judge.specs.declared.table.Link.{Link};
ghost use Rattle.network_judge.specs.declared.table.Reply.{Reply};
ghost use Rattle.network_judge.specs.Table.{Table, channels_of, joins_of};
ghost use Rattle.network_judge.specs.Replies.{AreReplies, RiseOver};
ghost use Rattle.network_judge.specs.Ways.{IsWay, FailsBy, table_route};
ghost use Rattle.network_judge.specs.TableNet.{Flits, table_network};
ghost use Rattle.network_judge.specs.Cycles.{Depends, IsCycle};
ghost use Rattle.network_judge.specs.declared.table.Verdict.{Verdict};
ghost use Rattle.network_judge.specs.Verdicts.{AllArrive, IsNumbered, IsVerdict};
ghost use Rattle.network_judge.specs.Exactly.{HasRisingNumbers, AreAlike, HasFailure};

use std::alloc::Allocator;

/// Where all walks arrive and the number of each channel is below that of the next one of a route,
/// the table is a wormhole network.
pub fn rising_tables_are_networks()
    ensures { (t : Table) (number : ℕ → ℕ) (top depth : ℕ) (flits : Flits) → AllArrive t
        → ((x : ℕ) → x < channels_of t → number x < top)
        → ((x j y : ℕ) → Depends t x j y → number x < number y)
        → IsNet (table_network t number top depth flits) }
{}

/// Around a cycle no numbers rise: with a cycle a table is no network, whatever the numbers, if these
/// rise over replies (Dally and Seitz).
pub fn cycles_have_no_numbers()
    ensures { (t : Table) (replies : List Reply) (links : List Link) → IsCycle t replies links
        → (number : ℕ → ℕ) (top depth : ℕ) (flits : Flits)
        → RiseOver replies number → IsNet (table_network t number top depth flits) → ⊥ }
{}

/// A walk that fails is no route, of however many steps.
pub fn failing_walks_are_no_routes()
    ensures { (t : Table) (i j : ℕ) (why : Why) → FailsBy t i j why
        → (n : ℕ) → IsWay t i j n → ⊥ }
{}

/// Where a table is a network with any numbers at all, between all joined ends there is a route.
pub fn networks_have_routes()
    ensures { (t : Table) (number : ℕ → ℕ) (top depth : ℕ) (flits : Flits)
        → IsNet (table_network t number top depth flits) → AllArrive t }
{}

/// A table has no verdicts of two kinds, and one that is a network with any numbers that rise over
/// replies has none but rising numbers.
pub fn verdicts_are_exact<A: Allocator, B: Allocator>()
    ensures alike { (t : Table) (replies : List Reply) (a : Verdict A) (b : Verdict B)
        → IsVerdict t replies a → IsVerdict t replies b → AreAlike a b }
    ensures rising { (t : Table) (replies : List Reply)
        (number : ℕ → ℕ) (top depth : ℕ) (flits : Flits)
        → RiseOver replies number → IsNet (table_network t number top depth flits)
        → (v : Verdict A) → IsVerdict t replies v → HasRisingNumbers v }
{}

/// Where all walks arrive there is a cycle, or there are numbers with which the table is a network and
/// which rise over replies: so where dependencies and replies are acyclic there are numbers (Dally and
/// Seitz, the other direction).
pub fn tables_without_cycles_have_numbers()
    ensures { (t : Table) (replies : List Reply) → AreReplies t replies → AllArrive t
        → ((links : List Link) × IsCycle t replies links)
        ⊎ ((numbers : List ℕ) × IsNumbered t replies numbers) }
{}

/// Each table is judged: there are numbers with which it is a network, or there is a cycle of
/// dependencies, or some pair has no route.
pub fn each_table_is_judged()
    ensures { (t : Table) (replies : List Reply) → AreReplies t replies
        → ((numbers : List ℕ) × IsNumbered t replies numbers)
        ⊎ (((links : List Link) × IsCycle t replies links) ⊎ HasFailure t) }
{}
