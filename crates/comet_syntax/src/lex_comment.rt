//! Comments.
ghost use Rattle.std.specs.Prelude.{◌≡◌, ◌≤◌, ◌++◌, not, true, ℕ, List, length, codes, IfSome, IfNone};
ghost use Rattle.std.specs.List.{take_while};
ghost use Rattle.comet_syntax.specs.Tokens.Comment.{IsComment, IsUpToClose, is_line_feed};
ghost use Rattle.comet_syntax.specs.Tokens.Comment as comments;

/// Whether a comment begins at the front of a text.
pub fn begins_comment(text: &[u8]) -> bool
    ensures { result ≡ comments.begins_comment text.now }
{
    match text {
        [first, second, ..] => *first == b'/' && (*second == b'/' || *second == b'*'),
        _ => false,
    }
}

/// How many bytes of a text stand before its first line feed.
fn line_len(text: &[u8]) -> usize
    ensures { result ≡ length (take_while (λ byte. not (is_line_feed byte)) text.now) }
{
    text.iter().take_while(|byte| **byte != b'\n').count()
}

/// What stands behind the first `*/` of a text. `None` exactly where there is none.
fn behind_close(text: &[u8]) -> Option<&[u8]>
    ensures some { IfSome result (λ rest. (body : List ℕ) × IsUpToClose text.now body rest.now) }
    ensures none { IfNone result ((body rest : List ℕ) → text.now ≡ body ++ (codes "*/" ++ rest) →
        ⊥) }
{
    for at in 0..text.len() {
        if text[at..].starts_with(b"*/") {
            return Some(&text[at + 2..]);
        }
    }
    None
}

/// What stands behind the comment that begins at the front of a text. `None` exactly where the comment
/// isn't closed.
pub fn behind_comment(text: &[u8]) -> Option<&[u8]>
    requires { comments.begins_comment text.now ≡ true }
    ensures some { IfSome result (λ rest. IsComment text.now rest.now) }
    ensures none { IfNone result ((rest : List ℕ) → IsComment text.now rest → ⊥) }
{
    let (opening, inside) = text.split_at(2);
    if opening[1] == b'*' {
        return behind_close(inside);
    }
    let (_, rest) = inside.split_at(line_len(inside));
    Some(rest)
}
