//! Laws of the commands' grammar.
ghost use Rattle.std.specs.Prelude.{◌≡◌, ◌↔◌, ℕ, List, Some};
ghost use Rattle.rk_bytes.specs.Model.Grammar.{Command, SpellsCommand, command_of};

/// Law: the command of a list of words is the one that they spell, and there is at most one.
pub fn one_command()
    ensures read { (words : List (List ℕ)) (command : Command) → (command_of words ≡ Some command) ↔ SpellsCommand words command }
    ensures unique { (words : List (List ℕ)) (command other : Command) → SpellsCommand words command → SpellsCommand words other → other ≡ command }
{}
