// 02, CR 8: a run of errors is always caught. Definitions and theorems over the message as read without a ledger; no code of its own.
#![tactic(auto)]

ghost use Rattle.std.specs.Prelude.{◌≡◌};
