// Demand 2: contents within their limits are written, and read back. Definitions and theorems over reading and writing; no code of its own.
#![tactic(auto)]

ghost use Rattle.std.specs.Prelude.{◌≡◌};
