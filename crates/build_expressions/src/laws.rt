//! What holds of all forms.
ghost use Rattle.parse_machine.specs.declared.form.ExpressionForm.{ExpressionForm};
ghost use Rattle.parse_machine.specs.Forms.{body_in_expression, part_in_expression};
ghost use Rattle.parse_stacks.specs.Standing.{Fits};
ghost use Rattle.build_expressions.specs.Made.{Made};

/// What is made of the values of a form of expressions is written as the form and its values.
pub fn expression_forms_fit()
    ensures { (f : ExpressionForm) → Fits (part_in_expression f) (body_in_expression f) (Made f) }
{}
