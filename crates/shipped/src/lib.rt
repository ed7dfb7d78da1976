// The shipped example games: who wins each of them, proved of the rules files' own bytes. Nothing is computed.
#![tactic(auto)]

ghost use Rattle.shipped.specs.Table.{ShippedGames};

// Each shipped game's file is read, and from each of its states some controller wins, or none does, as the table says.
pub fn shipped_games()
    ensures { ShippedGames }
{}
