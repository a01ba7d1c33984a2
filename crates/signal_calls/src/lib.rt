// The calls for C over subframes of D1, D2 and B-CNAV1: what each answers, and what each lent room then holds. Definitions and laws; no code of its own.
#![tactic(auto)]

ghost use Rattle.std.specs.Prelude.{◌≡◌};
