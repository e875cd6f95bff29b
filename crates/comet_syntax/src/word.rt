//! Signs and keywords by their spelling.
ghost use Rattle.std.specs.Prelude.{◌≡◌, true, false, length, IfSome, IfNone};
ghost use Rattle.std.specs.List.{list_all};
ghost use Rattle.comet_syntax.specs.declared.token.Word.{Word as WordOf};
ghost use Rattle.comet_syntax.specs.Word.{spelling, are_spelled_so, has_spelling, row_for};

use crate::token::Word;

/// The word that is spelled so. The lexer has its words from here, and so has the grammar's table.
#[macro_export]
macro_rules! word {
    ("(") => { $crate::Word::LeftParenthesis };
    (")") => { $crate::Word::RightParenthesis };
    ("{") => { $crate::Word::LeftBrace };
    ("}") => { $crate::Word::RightBrace };
    ("[") => { $crate::Word::LeftBracket };
    ("]") => { $crate::Word::RightBracket };
    (",") => { $crate::Word::Comma };
    (";") => { $crate::Word::Semicolon };
    (":") => { $crate::Word::Colon };
    (":=") => { $crate::Word::Assign };
    (":=:") => { $crate::Word::Swap };
    ("<-") => { $crate::Word::Arrow };
    ("=") => { $crate::Word::Equal };
    ("==") => { $crate::Word::EqualEqual };
    ("!=") => { $crate::Word::NotEqual };
    ("<") => { $crate::Word::Less };
    ("<=") => { $crate::Word::LessEqual };
    (">") => { $crate::Word::Greater };
    (">=") => { $crate::Word::GreaterEqual };
    ("+") => { $crate::Word::Plus };
    ("-") => { $crate::Word::Minus };
    ("*") => { $crate::Word::Star };
    ("/") => { $crate::Word::Slash };
    ("%") => { $crate::Word::Percent };
    ("++") => { $crate::Word::PlusPlus };
    ("--") => { $crate::Word::MinusMinus };
    ("+=") => { $crate::Word::PlusEqual };
    ("-=") => { $crate::Word::MinusEqual };
    ("!") => { $crate::Word::Exclamation };
    ("&&") => { $crate::Word::AndAnd };
    ("||") => { $crate::Word::OrOr };
    ("<<") => { $crate::Word::LessLess };
    ("..") => { $crate::Word::DotDot };
    (".") => { $crate::Word::Dot };
    ("@") => { $crate::Word::At };
    ("?") => { $crate::Word::Question };
    ("import") => { $crate::Word::Import };
    ("include") => { $crate::Word::Include };
    ("function") => { $crate::Word::Function };
    ("void") => { $crate::Word::Void };
    ("int") => { $crate::Word::Int };
    ("bool") => { $crate::Word::Bool };
    ("var") => { $crate::Word::Var };
    ("inc") => { $crate::Word::Inc };
    ("set") => { $crate::Word::Set };
    ("range") => { $crate::Word::Range };
    ("true") => { $crate::Word::True };
    ("false") => { $crate::Word::False };
    ("if") => { $crate::Word::If };
    ("else") => { $crate::Word::Else };
    ("while") => { $crate::Word::While };
    ("for") => { $crate::Word::For };
    ("forall") => { $crate::Word::ForAll };
    ("in") => { $crate::Word::In };
    ("select") => { $crate::Word::Select };
    ("selectMin") => { $crate::Word::SelectMin };
    ("selectMax") => { $crate::Word::SelectMax };
    ("neighbor") => { $crate::Word::Neighbor };
    ("whenever") => { $crate::Word::Whenever };
    ("with") => { $crate::Word::With };
    ("atomic") => { $crate::Word::Atomic };
    ("delay") => { $crate::Word::Delay };
    ("parall") => { $crate::Word::Parall };
    ("return") => { $crate::Word::Return };
    ("new") => { $crate::Word::New };
    ("cout") => { $crate::Word::Cout };
    ("endl") => { $crate::Word::Endl };
    ("call") => { $crate::Word::Call };
    ("sum") => { $crate::Word::Sum };
    ("min") => { $crate::Word::Min };
    ("max") => { $crate::Word::Max };
    ("all") => { $crate::Word::All };
    ("and") => { $crate::Word::And };
    ("or") => { $crate::Word::Or };
    ("setof") => { $crate::Word::SetOf };
    ("argMin") => { $crate::Word::ArgMin };
    ("argMax") => { $crate::Word::ArgMax };
    ("Solver") => { $crate::Word::Solver };
    ("LocalSolver") => { $crate::Word::LocalSolver };
    ("ConstraintSystem") => { $crate::Word::ConstraintSystem };
    ("FunctionExpr") => { $crate::Word::FunctionExpr };
    ("FunctionSum") => { $crate::Word::FunctionSum };
    ("UniformDistribution") => { $crate::Word::UniformDistribution };
    ("InputFile") => { $crate::Word::InputFile };
    ("MinNeighborSelector") => { $crate::Word::MinNeighborSelector };
    ("BestMonitor") => { $crate::Word::BestMonitor };
    ("Solution") => { $crate::Word::Solution };
}

/// Words, each behind its spelling.
macro_rules! spelled {
    ($($word:tt)*) => { &[$(($word, word!($word))),*] };
}

/// Every sign and keyword of the language, in 32 rows: each stands in the row of its first byte's remainder
/// by 32, so `b` and `B` begin what row 2 has, and no row is long.
const WORDS: [&[(&str, Word)]; 32] = [
    spelled!("@"),
    spelled!("!" "!=" "all" "and" "argMax" "argMin" "atomic"),
    spelled!("bool" "BestMonitor"),
    spelled!("call" "cout" "ConstraintSystem"),
    spelled!("delay"),
    spelled!("%" "else" "endl"),
    spelled!("&&" "false" "for" "forall" "function" "FunctionExpr" "FunctionSum"),
    spelled!(),
    spelled!("("),
    spelled!(")" "if" "import" "in" "inc" "include" "int" "InputFile"),
    spelled!("*"),
    spelled!("+" "++" "+="),
    spelled!("," "LocalSolver"),
    spelled!("-" "--" "-=" "max" "min" "MinNeighborSelector"),
    spelled!("." ".." "neighbor" "new"),
    spelled!("/" "or"),
    spelled!("parall"),
    spelled!(),
    spelled!("range" "return"),
    spelled!("select" "selectMax" "selectMin" "set" "setof" "sum" "Solution" "Solver"),
    spelled!("true"),
    spelled!("UniformDistribution"),
    spelled!("var" "void"),
    spelled!("whenever" "while" "with"),
    spelled!(),
    spelled!(),
    spelled!(":" ":=" ":=:"),
    spelled!(";" "[" "{"),
    spelled!("<" "<-" "<<" "<=" "||"),
    spelled!("=" "==" "]" "}"),
    spelled!(">" ">="),
    spelled!("?"),
];

/// The word that is spelled so in a row. `None` exactly where the row doesn't have the spelling.
fn word_in(row: &[(&str, Word)], bytes: &[u8]) -> Option<Word>
    requires { are_spelled_so row.now ≡ true }
    ensures some { IfSome result (λ word. bytes.now ≡ spelling word) }
    ensures none { IfNone result (has_spelling row.now bytes.now ≡ false) }
{
    for entry in row {
        if entry.0.as_bytes() == bytes {
            return Some(entry.1);
        }
    }
    None
}

/// The word that is spelled so, of rows in which each word stands in its own. `None` exactly where there
/// is none.
fn word_among(rows: &[&[(&str, Word)]], bytes: &[u8]) -> Option<Word>
    requires rows { length rows.now ≡ 32 }
    requires spelled { list_all (λ row. are_spelled_so row.now) rows.now ≡ true }
    requires known { (word : WordOf) →
        has_spelling (row_for rows.now (spelling word)) (spelling word) ≡ true }
    ensures some { IfSome result (λ word. bytes.now ≡ spelling word) }
    ensures none { IfNone result ((word : WordOf) → bytes.now ≡ spelling word → ⊥) }
{
    match bytes.first() {
        None => None,
        Some(first) => word_in(rows[(*first % 32) as usize], bytes),
    }
}

/// The sign or keyword that is spelled so. `None` exactly where there is none.
pub fn word_of(bytes: &[u8]) -> Option<Word>
    ensures some { IfSome result (λ word. bytes.now ≡ spelling word) }
    ensures none { IfNone result ((word : WordOf) → bytes.now ≡ spelling word → ⊥) }
{
    word_among(&WORDS, bytes)
}
