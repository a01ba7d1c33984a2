// The part of a type 3 is read back as it was written, and what is read is canonical and fits. Theorems over reading and writing; no code of its own.
#![tactic(auto)]

ghost use Rattle.std.specs.Prelude.{◌≡◌};
