//! Laws of network texts, each the contract of a function that does nothing.

ghost use Rattle.std.specs.Prelude.{◌≡◌, ◌≤◌, ◌++◌, ℕ, List, length, Ok, None, codes};
ghost use Rattle.std.specs.Str.Lines.{lines};
ghost use Rattle.network_text.specs.Network.{NetworkSpec, network_of, network_or_why};
ghost use Rattle.network_text.specs.Names.{without_names};
ghost use Rattle.network_text.specs.Network.{Reading, count_of, after_joins};
ghost use Rattle.network_text.specs.Joins.{after_each_join};
ghost use Rattle.network_text.specs.AllPairs.{every_join, two_tiles};
ghost use Rattle.network_text.specs.declared.ranges.ChannelRange.{ChannelRange};
ghost use Rattle.network_text.specs.Ranges.{channels_of, lacks_any};
ghost use Rattle.network_text.specs.Routing.{Fixed, routing_or_why};

/// Names change no network, and so no verdict: where the lines of a text give one, the same lines but
/// those that name a router or a channel give the same one.
pub fn names_change_no_network()
    ensures why { (lines : List (List ℕ)) (n : NetworkSpec) → network_or_why lines ≡ Ok n
        → network_or_why (without_names lines) ≡ Ok n }
    ensures fault { (lines : List (List ℕ)) (n : NetworkSpec) → network_of lines ≡ Ok n
        → network_of (without_names lines) ≡ Ok n }
{}

/// Fixed routes are the case of one choice: a text gives a network of fixed routes where routers may
/// choose exactly if it gives the same one where they may not.
pub fn fixed_routes_are_the_case_of_one_choice()
    ensures given { (lines : List (List ℕ)) (n : NetworkSpec) → network_or_why lines ≡ Ok n
        → routing_or_why lines ≡ Ok (Fixed n) }
    ensures back { (lines : List (List ℕ)) (n : NetworkSpec) → routing_or_why lines ≡ Ok (Fixed n)
        → network_or_why lines ≡ Ok n }
{}

/// A line `join` of lists says what a line `join` says for each of its senders and each of its
/// receivers, in this order: of channels below their number, and as long as there is room for joins.
pub fn join_lists_are_each_join()
    ensures each { (r : Reading) (is js : List ChannelRange) → lacks_any (count_of r) 1 is ≡ None
        → lacks_any (count_of r) 2 js ≡ None → length r.table.joins ≤ 4194304
        → after_joins r is js
        ≡ after_each_join r (every_join (channels_of is) (channels_of js)) }
    ensures text { network_or_why (lines (two_tiles ++ codes "join 2,0 1-1,3\n"))
        ≡ network_or_why (lines (two_tiles ++ codes "join 2 1\njoin 2 3\njoin 0 1\njoin 0 3\n")) }
    ensures all { network_or_why (lines (two_tiles ++ codes "join all 3\n"))
        ≡ network_or_why (lines (two_tiles ++ codes "join 0 3\njoin 2 3\n")) }
{}

/// `join all` says what a line `join` says for each sender and each receiver, here of two tiles.
pub fn join_all_is_each_join()
    ensures { network_or_why (lines (two_tiles ++ codes "join all\n"))
        ≡ network_or_why (lines (two_tiles ++ codes "join 0 1\njoin 0 3\njoin 2 1\njoin 2 3\n")) }
{}
