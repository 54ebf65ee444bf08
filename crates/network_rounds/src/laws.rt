//! Laws on rounds.

ghost use Rattle.network_rounds.specs.Fairness.{GoRound, RoundsGrantInTurn};

/// Grants go round: among as many grants of an output as it has inputs, one is of each input that asks
/// at all of them.
pub fn grants_go_round()
    ensures { GoRound }
{}

/// Outputs are granted in turn: in a round by the round robin what an output was granted to last stays, or
/// becomes the first of the inputs that ask for it, whose put is made.
pub fn rounds_grant_in_turn()
    ensures { RoundsGrantInTurn }
{}
