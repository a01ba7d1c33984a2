// Demand 3: the list is right. Definitions and theorems over the ledger and its list; no code of its own.
#![tactic(auto)]

ghost use Rattle.std.specs.Prelude.{◌≡◌};
