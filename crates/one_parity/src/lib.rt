// 02, CR 9: the second half of 000's matrix has an inverse, so every message has one parity. Definitions and theorems; no code of its own.
#![tactic(auto)]

ghost use Rattle.std.specs.Prelude.{◌≡◌};
