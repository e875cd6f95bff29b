//! Where a journal begins in a text.
ghost use Rattle.std.specs.Prelude.{◌≡◌, None, IfSome, IfNone};
ghost use Rattle.journal_text.specs.Versions.{version_of};
ghost use Rattle.journal_text.specs.Refusal.{split};
ghost use Rattle.journal_text.specs.Headers.{NoneIsHeader, IsLastHeader, header_or, last_in};

use crate::cutting::cut;
use crate::version::version_of;

// The last place of a header, with one line more, that begins here.
fn with_line(line: &[u8], at: usize, found: Option<usize>) -> Option<usize>
    ensures { result ≡ header_or (version_of line.now) at found }
{
    match version_of(line) {
        Some(_) => Some(at),
        None => found,
    }
}

#[tactic(auto, using(crate::proofs::HeaderLaws::lengths, crate::proofs::HeaderLaws::in_last, crate::proofs::HeaderLaws::in_more))]
fn last_header(text: &[u8]) -> Option<usize>
    ensures { result ≡ last_in 0 None (split 10 text.now) }
{
    let mut found = None;
    let mut rest = text;
    let mut at = 0usize;
    for _ in 0..text.len() + 1 {
        let Some((line, behind)) = cut(rest, b'\n') else {
            return with_line(rest, at, found);
        };
        found = with_line(line, at, found);
        at += line.len() + 1;
        rest = behind;
    }
    None
}

/// Where the last line begins that is exactly the header of a version, also without a line feed at the text's
/// end. `None` exactly where no line is a header. It takes no memory.
pub fn tail(text: &[u8]) -> Option<usize>
    ensures some { IfSome result (λ at. IsLastHeader text.now at) }
    ensures none { IfNone result (NoneIsHeader (split 10 text.now)) }
{
    last_header(text)
}
