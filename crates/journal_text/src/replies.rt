//! Replies, as the words of a line.
ghost use Rattle.std.specs.Prelude.{◌≡◌};
ghost use Rattle.journal_text.specs.Refusal.{split};
ghost use Rattle.journal_text.specs.Reading.{Gives, begins_number, number_reply, list_reply, word_reply, short_reply, long_reply, reply_of};

use crate::cutting::{cut, is_text, only_word};
use crate::numbers::{list_of, number_of, signed_of};
use crate::stop::Stop;
use best_monitor::Reply;
use std::alloc::Global;

fn begins_number(byte: u8) -> bool
    ensures { result ≡ begins_number byte }
{
    byte == b'-' || byte.is_ascii_digit()
}

#[tactic(auto, unfolding(crate::specs::Reading::number_reply))]
fn number_reply(word: &[u8]) -> Result<Reply, Stop>
    ensures { Gives (λ r. r) result (number_reply word.now) }
{
    let value = signed_of(word)?;
    Ok(Reply::Number(value))
}

#[tactic(auto, unfolding(crate::specs::Reading::list_reply))]
fn list_reply(alloc: Global, word: &[u8]) -> Result<Reply, Stop>
    ensures { Gives (λ r. r) result (list_reply word.now) }
{
    let list = list_of(alloc, word)?;
    Ok(Reply::List(list))
}

fn word_reply(word: &[u8]) -> Result<Reply, Stop>
    ensures { Gives (λ r. r) result (word_reply word.now) }
{
    if is_text(word, "true") {
        return Ok(Reply::Truth(true));
    }
    if is_text(word, "false") {
        return Ok(Reply::Truth(false));
    }
    if is_text(word, "none") {
        return Ok(Reply::Missing);
    }
    if is_text(word, "ok") {
        return Ok(Reply::Done);
    }
    Err(Stop::Fault)
}

// A reply of one word.
fn short_reply(alloc: Global, word: &[u8]) -> Result<Reply, Stop>
    ensures { Gives (λ r. r) result (short_reply word.now) }
{
    let Some(first) = word.first() else {
        return Err(Stop::Fault);
    };
    if begins_number(*first) {
        return number_reply(word);
    }
    if *first == b'[' {
        return list_reply(alloc, word);
    }
    word_reply(word)
}

// A reply of two words.
#[tactic(auto, unfolding(crate::specs::Reading::long_reply))]
fn long_reply(name: &[u8], word: &[u8]) -> Result<Reply, Stop>
    ensures { Gives (λ r. r) result (long_reply name.now word.now) }
{
    let number = number_of(word)?;
    if is_text(name, "long") {
        Ok(Reply::Long(number))
    } else {
        Err(Stop::Fault)
    }
}

/// The reply that all of these words are.
#[tactic(auto, using(crate::proofs::ReplyLaws::short_words, crate::proofs::ReplyLaws::long_words, crate::proofs::ReplyLaws::more_words))]
pub(crate) fn reply_of(alloc: Global, words: &[u8]) -> Result<Reply, Stop>
    ensures { Gives (λ r. r) result (reply_of (split 32 words.now)) }
{
    let Some((name, rest)) = cut(words, b' ') else {
        return short_reply(alloc, words);
    };
    let word = only_word(rest)?;
    long_reply(name, word)
}
