//! Laws over the definitions alone.
ghost use Rattle.std.specs.Prelude.{◌≡◌, ℕ, true, Some};
ghost use Rattle.comet_syntax.specs.declared.tree.expressions.Expression.{Expression};
ghost use Rattle.checked_tree.specs.Shape.{Seen};
ghost use Rattle.type_rules.specs.Rules.{is_pure};
ghost use Rattle.type_scopes.specs.declared.scope.Scope.{Scope};
ghost use Rattle.type_scopes.specs.State.{State, Went};
ghost use Rattle.type_expressions.specs.Expressions.{judge};
ghost use Rattle.type_laws.specs.Behaves.{IsInside};

/// What a pure expression calls is pure: where it is accepted, nothing impure is done.
pub fn pure_expressions_do_nothing()
    ensures { (e : Expression) (scope : Scope) (s : State) (x : Seen) (t : State) →
        is_pure scope.context ≡ true → judge e scope s ≡ Went x t →
        t.effects.impure ≡ s.effects.impure }
{}

/// An accepted expression in a `parall` writes no name from outside it, and does nothing that is forbidden there.
pub fn expressions_in_a_parall_write_inside()
    ensures { (e : Expression) (scope : Scope) (s : State) (x : Seen) (t : State) (outer : ℕ) →
        scope.parall ≡ Some outer → judge e scope s ≡ Went x t →
        IsInside outer s.effects t.effects }
{}
