//! Nodes of statements, made from their parts.
ghost use Rattle.std.specs.Prelude.{◌≡◌, ◌∷◌, IfOk, map};
ghost use Rattle.comet_syntax.specs.declared.token.Word.TheVariants as words;
ghost use Rattle.comet_syntax.specs.Grammar.Statements.{statement_block, statement_semicolon, statement_declaration, statement_simple, statement_return, statement_for_all, statement_select};
ghost use Rattle.comet_syntax.specs.Grammar.Symbols.{statement};
ghost use Rattle.comet_syntax.specs.Written.Shown.{form, word};
ghost use Rattle.comet_syntax.specs.Written.Expressions.{written, written_generators, generators_text, at_postfix};
ghost use Rattle.comet_syntax.specs.Written.Declarations.{whole_text, written_declaration};
ghost use Rattle.comet_syntax.specs.Written.Statements.{written_statement, written_block, written_simple, statement_by, unboxed, option_text, if_text, while_text, for_text, for_start_text, value_text, for_step_text, over_text, select_by_text, neighbor_text, whenever_text, events_text, with_text, parall_text, block_text};

use cbl_base::{NoMemory, Place};
use comet_syntax::tree::{
    Block, Declaration, Events, Expression, Extreme, ForHead, ForStart, Generators, Name, Simple,
    Statement, Watched, WithMode,
};
use parse_stacks::{box_branches, box_some, box_three, box_two};
use std::alloc::Global;

/// `{ statements }`
pub fn make_block(place: Place, statements: Vec<Statement>) -> Block
    ensures { written_block result ≡ block_text place (map written_statement statements.items) }
{
    Block { place, statements }
}

/// A block as a statement.
pub fn make_block_alone(block: Block) -> Statement
    ensures { written_statement result ≡
        (λ behind. form statement statement_block ∷ written_block block behind) }
{
    Statement::Block(block)
}

/// `;`
pub fn make_empty(place: Place) -> Statement
    ensures { written_statement result ≡ statement_by statement_semicolon words.Semicolon place }
{
    Statement::Empty(place)
}

/// `declaration;`
pub fn make_declared(alloc: Global, declaration: Declaration) -> Result<Statement, NoMemory>
    ensures { IfOk result (λ s. written_statement s ≡
        (λ behind. form statement statement_declaration ∷ written_declaration declaration
        (word words.Semicolon behind))) }
{
    let declaration = Box::new(alloc, declaration)?;
    Ok(Statement::Declaration(declaration))
}

/// `simple;`
pub fn make_simple_alone(simple: Simple) -> Statement
    ensures { written_statement result ≡
        (λ behind. form statement statement_simple ∷ written_simple simple
        (word words.Semicolon behind)) }
{
    Statement::Simple(simple)
}

/// `return value;`
pub fn make_return(
    alloc: Global,
    place: Place,
    value: Option<Expression>,
) -> Result<Statement, NoMemory>
    ensures { IfOk result (λ s. written_statement s ≡
        (λ behind. statement_by statement_return words.Return place
        (value_text value (word words.Semicolon behind)))) }
{
    let value = box_some(alloc, value)?;
    Ok(Statement::Return { place, value })
}

/// `if (test) then otherwise`
pub fn make_if(
    alloc: Global,
    place: Place,
    test: Expression,
    then: Statement,
    otherwise: Option<Statement>,
) -> Result<Statement, NoMemory>
    ensures { IfOk result (λ s. written_statement s ≡
        if_text place (whole_text test) (written_statement then)
        (option_text written_statement otherwise)) }
{
    let (test, then, otherwise) = box_branches(alloc, test, then, otherwise)?;
    Ok(Statement::If {
        place,
        test,
        then,
        otherwise,
    })
}

/// `while (test) body`
pub fn make_while(
    alloc: Global,
    place: Place,
    test: Expression,
    body: Statement,
) -> Result<Statement, NoMemory>
    ensures { IfOk result (λ s. written_statement s ≡
        while_text place (whole_text test) (written_statement body)) }
{
    let (test, body) = box_two(alloc, test, body)?;
    Ok(Statement::While { place, test, body })
}

/// `for (start; test; step) body`
pub fn make_for(
    alloc: Global,
    place: Place,
    start: Option<ForStart>,
    test: Option<Expression>,
    step: Option<Simple>,
    body: Statement,
) -> Result<Statement, NoMemory>
    ensures { IfOk result (λ s. written_statement s ≡
        for_text place (for_start_text start) (value_text test) (for_step_text step)
        (written_statement body)) }
{
    let head = ForHead { start, test, step };
    let (head, body) = box_two(alloc, head, body)?;
    Ok(Statement::For { place, head, body })
}

/// `forall (generators) body`
pub fn make_for_all(
    alloc: Global,
    place: Place,
    generators: Generators,
    body: Statement,
) -> Result<Statement, NoMemory>
    ensures { IfOk result (λ s. written_statement s ≡
        over_text statement_for_all words.ForAll place
        (generators_text (written_generators generators)) (written_statement body)) }
{
    let (generators, body) = box_two(alloc, generators, body)?;
    Ok(Statement::ForAll {
        place,
        generators,
        body,
    })
}

/// `select (generators) body`
pub fn make_select(
    alloc: Global,
    place: Place,
    generators: Generators,
    body: Statement,
) -> Result<Statement, NoMemory>
    ensures { IfOk result (λ s. written_statement s ≡
        over_text statement_select words.Select place
        (generators_text (written_generators generators)) (written_statement body)) }
{
    let (generators, body) = box_two(alloc, generators, body)?;
    Ok(Statement::Select {
        place,
        generators,
        body,
    })
}

/// `selectMin (generators) (key) body` or `selectMax (generators) (key) body`
pub fn make_select_by(
    alloc: Global,
    place: Place,
    extreme: Extreme,
    generators: Generators,
    key: Expression,
    body: Statement,
) -> Result<Statement, NoMemory>
    ensures { IfOk result (λ s. written_statement s ≡
        select_by_text extreme place (generators_text (written_generators generators))
        (whole_text key) (written_statement body)) }
{
    let (generators, key, body) = box_three(alloc, generators, key, body)?;
    Ok(Statement::SelectBy {
        place,
        extreme,
        generators,
        key,
        body,
    })
}

/// `neighbor (key, selector) body`
pub fn make_neighbor(
    alloc: Global,
    place: Place,
    key: Expression,
    selector: Name,
    body: Statement,
) -> Result<Statement, NoMemory>
    ensures { IfOk result (λ s. written_statement s ≡
        neighbor_text place (whole_text key) selector (written_statement body)) }
{
    let (key, body) = box_two(alloc, key, body)?;
    Ok(Statement::Neighbor {
        place,
        key,
        selector,
        body,
    })
}

/// `whenever variable@event(int old, int new) body`
pub fn make_whenever(
    alloc: Global,
    place: Place,
    variable: Expression,
    event: Name,
    names: Option<Events>,
    body: Statement,
) -> Result<Statement, NoMemory>
    ensures { IfOk result (λ s. written_statement s ≡
        whenever_text place (at_postfix (written variable)) event (events_text names)
        (written_statement body)) }
{
    let watched = Watched {
        variable,
        event,
        names,
    };
    let (watched, body) = box_two(alloc, watched, body)?;
    Ok(Statement::Whenever {
        place,
        watched,
        body,
    })
}

/// `with atomic (solver) block` or `with delay (solver) block`
pub fn make_with(
    alloc: Global,
    place: Place,
    mode: WithMode,
    solver: Name,
    body: Block,
) -> Result<Statement, NoMemory>
    ensures { IfOk result (λ s. written_statement s ≡
        with_text place mode solver (written_block body)) }
{
    let body = Box::new(alloc, body)?;
    Ok(Statement::With {
        place,
        mode,
        solver,
        body,
    })
}

/// `parall (name in domain) body`
pub fn make_parall(
    alloc: Global,
    place: Place,
    name: Name,
    domain: Expression,
    body: Statement,
) -> Result<Statement, NoMemory>
    ensures { IfOk result (λ s. written_statement s ≡
        parall_text place name (whole_text domain) (written_statement body)) }
{
    let (domain, body) = box_two(alloc, domain, body)?;
    Ok(Statement::Parall {
        place,
        name,
        domain,
        body,
    })
}
