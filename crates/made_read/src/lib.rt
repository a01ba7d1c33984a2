// 02, CR 9: a made frame whose first flag is 0 is read as its message is. Statement and theorem; no code of its own.
#![tactic(auto)]

ghost use Rattle.std.specs.Prelude.{◌≡◌};
