// Accepted and in force by looking back over the frames, and what the bytes of a ledger become: definitions and theorems; no code of its own.
#![tactic(auto)]

ghost use Rattle.std.specs.Prelude.{◌≡◌};
