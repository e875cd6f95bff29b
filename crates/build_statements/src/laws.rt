//! Laws over the definitions alone.
ghost use Rattle.comet_syntax.specs.Grammar.Symbols.{Part};
ghost use Rattle.parse_machine.specs.declared.form.StatementForm.{StatementForm};
ghost use Rattle.parse_machine.specs.Forms.{part_in_statement, body_in_statement};
ghost use Rattle.parse_stacks.specs.Standing.{FitsThere};
ghost use Rattle.build_statements.specs.MadeStatements.{Made};

/// What is made of the values of a form of statements is written as the form and its values.
pub fn statement_forms_fit()
    ensures { (f : StatementForm) → FitsThere (part_in_statement f) (body_in_statement f) (Made f) }
{}
