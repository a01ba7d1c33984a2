// The correction sheet: what holds between the list, writing and reading. Definitions and theorems; no code of its own.
#![tactic(auto)]

ghost use Rattle.std.specs.Prelude.{◌≡◌};
