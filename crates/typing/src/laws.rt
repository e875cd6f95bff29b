//! Laws over the definitions alone.
ghost use Rattle.std.specs.Prelude.{◌≡◌};
ghost use Rattle.comet_syntax.specs.declared.tree.declarations.Declaration.{Declaration};
ghost use Rattle.comet_syntax.specs.declared.tree.expressions.Expression.{Expression};
ghost use Rattle.comet_syntax.specs.declared.tree.statements.Simple.{Simple};
ghost use Rattle.comet_syntax.specs.declared.tree.statements.Statement.{Statement};
ghost use Rattle.checked_tree.specs.Actions.{Deed};
ghost use Rattle.checked_tree.specs.Tasks.{Work, Whole};
ghost use Rattle.comet_syntax.specs.declared.tree.program.Program.{Program};
ghost use Rattle.comet_types.specs.Program.{judged, accepted};
ghost use Rattle.typing.specs.Programs.{ProgramIsTyped};
ghost use Rattle.checked_tree.specs.Shape.{Seen};
ghost use Rattle.type_scopes.specs.declared.scope.Scope.{Scope};
ghost use Rattle.type_scopes.specs.State.{State, Went};
ghost use Rattle.type_expressions.specs.Expressions.{judge};
ghost use Rattle.type_declarations.specs.Declarations.{declaration_form};
ghost use Rattle.type_simples.specs.declared.simples.Standing.{Standing};
ghost use Rattle.type_simples.specs.Simples.{Acted, simple_form};
ghost use Rattle.type_statements.specs.Statements.{statement_of};
ghost use Rattle.typing.specs.Rules.{IsTyped};
ghost use Rattle.typing.specs.Declarations.{DeclarationIsTyped};
ghost use Rattle.typing.specs.Simples.{SimpleIsTyped};
ghost use Rattle.typing.specs.Statements.{StatementIsTyped};

/// An accepted expression is well typed: what checking makes of it, and what is known then, follow by the rules.
pub fn accepted_expressions_are_well_typed()
    ensures { (scope : Scope) (before : State) (e : Expression) (x : Seen) (after : State) →
        judge e scope before ≡ Went x after → IsTyped scope before e x after }
{}

/// A well typed expression is accepted, with what the rules make of it and what they say is known then.
pub fn well_typed_expressions_are_accepted()
    ensures { (scope : Scope) (before : State) (e : Expression) (x : Seen) (after : State) →
        IsTyped scope before e x after → judge e scope before ≡ Went x after }
{}

/// An accepted declaration is well typed: what checking makes of it, and what is known then, follow by the rules.
pub fn accepted_declarations_are_well_typed()
    ensures { (scope : Scope) (before : State) (d : Declaration) (x : Deed) (after : State) →
        declaration_form d scope before ≡ Went x after → DeclarationIsTyped scope before d x after }
{}

/// A well typed declaration is accepted, with what the rules make of it and what they say is known then.
pub fn well_typed_declarations_are_accepted()
    ensures { (scope : Scope) (before : State) (d : Declaration) (x : Deed) (after : State) →
        DeclarationIsTyped scope before d x after → declaration_form d scope before ≡ Went x after }
{}

/// An accepted simple statement is well typed: what checking makes of it, and what is known then, follow by the rules.
pub fn accepted_simples_are_well_typed()
    ensures { (scope : Scope) (before : State) (standing : Standing) (x : Simple) (y : Acted)
        (after : State) → simple_form x standing scope before ≡ Went y after →
        SimpleIsTyped scope before standing x y after }
{}

/// A well typed simple statement is accepted, with what the rules make of it and what they say is known then.
pub fn well_typed_simples_are_accepted()
    ensures { (scope : Scope) (before : State) (standing : Standing) (x : Simple) (y : Acted)
        (after : State) → SimpleIsTyped scope before standing x y after →
        simple_form x standing scope before ≡ Went y after }
{}

/// An accepted statement is well typed: what checking makes of it, and what is known then, follow by the rules.
pub fn accepted_statements_are_well_typed()
    ensures { (scope : Scope) (before : State) (x : Statement) (w : Work) (after : State) →
        statement_of x scope before ≡ Went w after → StatementIsTyped scope before x w after }
{}

/// A well typed statement is accepted, with what the rules make of it and what they say is known then.
pub fn well_typed_statements_are_accepted()
    ensures { (scope : Scope) (before : State) (x : Statement) (w : Work) (after : State) →
        StatementIsTyped scope before x w after → statement_of x scope before ≡ Went w after }
{}

/// An accepted program is well typed: what checking makes of it follows by the rules.
pub fn accepted_programs_are_well_typed()
    ensures { (p : Program) (w : Whole) → judged p ≡ accepted w → ProgramIsTyped p w }
{}

/// A well typed program is accepted, with what the rules make of it.
pub fn well_typed_programs_are_accepted()
    ensures { (p : Program) (w : Whole) → ProgramIsTyped p w → judged p ≡ accepted w }
{}
