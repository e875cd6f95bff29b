//! Laws over the definitions alone.
ghost use Rattle.std.specs.Prelude.{◌≡◌, ℕ, Some};
ghost use Rattle.comet_syntax.specs.declared.tree.statements.Statement.{Statement};
ghost use Rattle.checked_tree.specs.Tasks.{Work};
ghost use Rattle.type_scopes.specs.declared.scope.Scope.{Scope};
ghost use Rattle.type_scopes.specs.State.{State, Went};
ghost use Rattle.type_laws.specs.Behaves.{IsInside};
ghost use Rattle.type_statements.specs.Statements.{statement_of};

/// An accepted statement in a `parall` writes no name from outside it, also not through calls, and does nothing that
/// is forbidden there: the effects of the function around it stay as they were.
pub fn statements_in_a_parall_write_inside()
    ensures { (st : Statement) (scope : Scope) (s : State) (w : Work) (t : State) (outer : ℕ) →
        scope.parall ≡ Some outer → statement_of st scope s ≡ Went w t →
        IsInside outer s.effects t.effects }
{}
