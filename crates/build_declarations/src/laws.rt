//! What each form makes is written as the form and the values that it was made of.
ghost use Rattle.build_declarations.specs.MadeDeclarations.{Made as DeclarationMade};
ghost use Rattle.build_declarations.specs.MadePrograms.{Made as ProgramMade};
ghost use Rattle.parse_machine.specs.Forms.{part_in_declaration, body_in_declaration, part_in_program, body_in_program};
ghost use Rattle.parse_machine.specs.declared.form.DeclarationForm.{DeclarationForm};
ghost use Rattle.parse_machine.specs.declared.form.ProgramForm.{ProgramForm};
ghost use Rattle.parse_stacks.specs.Standing.{Fits};

/// Each form of declarations.
pub fn declaration_forms_fit()
    ensures { (f : DeclarationForm) → Fits (part_in_declaration f) (body_in_declaration f)
        (DeclarationMade f) }
{}

/// Each form of programs, of parameters and of classes.
pub fn program_forms_fit()
    ensures { (f : ProgramForm) → Fits (part_in_program f) (body_in_program f) (ProgramMade f) }
{}
