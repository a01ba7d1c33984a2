// 02, CR 14: a table of four ledgers over lists of calls. Definitions and theorems; no code of its own.
#![tactic(auto)]

ghost use Rattle.std.specs.Prelude.{◌≡◌};
