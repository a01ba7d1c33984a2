// Whatever is kept by slot and looked back for: definitions and laws over any record, mask and frame; no code of its own.
#![tactic(auto)]

ghost use Rattle.std.specs.Prelude.{◌≡◌};
