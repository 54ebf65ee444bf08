//! A law of watches, the contract of a function that does nothing.

ghost use Rattle.std.specs.Prelude.{◌≡◌, ℕ, List};
ghost use Rattle.trace_laws.specs.declared.event.Event.{Event};
ghost use Rattle.trace_watch.specs.declared.watch.Seen.{Seen};
ghost use Rattle.trace_watch.specs.declared.watch.Watch.{Watch};
ghost use Rattle.trace_watch.specs.Follows.{TellsSeen};

use std::alloc::Allocator;

/// Two watches that follow one trace say the same of an event that both judge.
pub fn watches_agree<A: Allocator>()
    ensures { (opening : List ℕ) (trace : List Event) (event : Event) (v w : Watch A) (one other : Seen)
        → TellsSeen opening trace event v one → TellsSeen opening trace event w other → one ≡ other }
{}
