// The calls for C over correction sheets: what each answers, and what each lent room then holds. Definitions and laws; no code of its own.
#![tactic(auto)]

ghost use Rattle.std.specs.Prelude.{◌≡◌};
