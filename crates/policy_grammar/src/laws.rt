//! The grammar of expressions, and what a text is read as.
ghost use Rattle.std.specs.Prelude.{◌≡◌, ◌↔◌, Some};
ghost use Rattle.policy_model.specs.Keys.{Text};
ghost use Rattle.policy_model.specs.Grammar.{Spells};
ghost use Rattle.policy_model.specs.Reading.{expression_of, inside, place_of};
ghost use Rattle.policy_model.specs.declared.expression.Expression.{Expression};
ghost use Rattle.policy_model.specs.declared.expression.Reference.{Reference};
ghost use Rattle.policy_grammar.specs.Places.{IsPlace, SpellsPlace};

/// Supplies laws; has no effect at run time: a text is read as an expression exactly where the grammar says that it spells
/// it. So a text spells one expression at most, and one that spells none is read as none. Of places it is the same.
pub fn grammar_laws()
    // What a text is read as, it spells.
    ensures sound { (t : Text) (e : Expression) → expression_of t ≡ Some e → Spells t e }
    // An expression that a text spells is what it is read as.
    ensures complete { (t : Text) (e : Expression) → Spells t e → expression_of t ≡ Some e }
    // A text is a place exactly where braces stand around the rest.
    ensures braces { (t inner : Text) → (inside t ≡ Some inner) ↔ IsPlace t inner }
    // What stands in a place is read as the reference that it spells, and as no other.
    ensures place { (inner : Text) (r : Reference) → (place_of inner ≡ Some r) ↔ SpellsPlace inner r }
{}
