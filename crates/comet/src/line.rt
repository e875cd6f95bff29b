//! The line on the standard error that tells why a run ended.
ghost use Rattle.std.specs.Prelude.{◌≡◌, ◌≤◌, OnOk, OnErr, map};
ghost use Rattle.cbl_io.specs.Appended.{Appends, AppendsFront};
ghost use Rattle.cbl_io.specs.Faults.{HasRisen};
ghost use Rattle.comet.specs.Line.{arrowed, coded_line, cycle_end, cycle_line, cycle_start, fault_line, first_of, form_text, joined, line_of, placed_line, plain_line, role_text, type_line, type_text};

use crate::report::{Cause, FileRole};
use cbl_base::{Place, RunFault, Text};
use cbl_io::{Failed, Sink, write_all};
use comet_syntax::FormCause;
use itoa::Buffer;

/// The text for words that aren't in form.
const USAGE: &str =
    "usage: comet [--data FILE] [--seed N] [--workers N] [--fuel N] [--journal] [--replay FILE] (PROGRAM | --gen N)";

/// The text of a program's refusal.
fn text_of_form(cause: FormCause) -> &'static str
    ensures { result.now ≡ form_text cause }
{
    match cause {
        FormCause::Encoding => "not UTF-8",
        FormCause::TooLong => "text too long",
        FormCause::BadToken => "bad token",
        FormCause::WideNumber => "number too wide",
        FormCause::Unexpected => "unexpected token",
        FormCause::UnexpectedEnd => "unexpected end of text",
        FormCause::TooDeep => "nested too deeply",
        FormCause::NotBuilt => "not built yet",
    }
}

/// The text of the typing rule with this code; none has a code that isn't from 1 to 12.
#[tactic(auto, unfolding(crate::specs::Line::type_text))]
fn text_of_type(code: u8) -> &'static str
    ensures { result.now ≡ type_text code }
{
    match code {
        1 => "unknown name",
        2 => "name declared twice",
        3 => "wrong type",
        4 => "wrong number of arguments",
        5 => "not pure",
        6 => "not allowed in a term",
        7 => "a parall body writes an outer name",
        8 => "not allowed in a parall body",
        9 => "misplaced return",
        10 => "cannot be assigned",
        11 => "unknown method",
        12 => "only LS is supported",
        _ => "",
    }
}

/// The text for a file that can't be read.
fn text_of_role(role: FileRole) -> &'static str
    ensures { result.now ≡ role_text role }
{
    match role {
        FileRole::Program => "cannot read program",
        FileRole::Data => "cannot read data",
    }
}

/// Writes pieces one behind the other.
fn write_pieces<E: Sink>(err: &mut E, pieces: &[&[u8]]) -> Result<(), Failed>
    ensures ok { OnOk result (Appends (E.bytes err.old) (E.bytes err.new)
        (joined (map (λ piece. piece.now) pieces.now))) }
    ensures err { OnErr result (AppendsFront (E.bytes err.old) (E.bytes err.new)
        (joined (map (λ piece. piece.now) pieces.now))) }
    ensures failed { OnErr result (HasRisen (E.faults err.old) (E.faults err.new)) }
    ensures never_falls { E.faults err.old ≤ E.faults err.new }
{
    for piece in pieces {
        write_all(err, piece)?;
    }
    Ok(())
}

/// Writes a line with this text.
fn write_plain<E: Sink>(err: &mut E, text: &str) -> Result<(), Failed>
    ensures ok { OnOk result (Appends (E.bytes err.old) (E.bytes err.new) (plain_line text.now)) }
    ensures err { OnErr result (AppendsFront (E.bytes err.old) (E.bytes err.new)
        (plain_line text.now)) }
    ensures failed { OnErr result (HasRisen (E.faults err.old) (E.faults err.new)) }
{
    write_pieces(err, &[b"comet: ", text.as_bytes(), b"\n"])?;
    Ok(())
}

/// Writes a line with a place and this text.
fn write_placed<E: Sink>(err: &mut E, place: Place, text: &str) -> Result<(), Failed>
    ensures ok { OnOk result (Appends (E.bytes err.old) (E.bytes err.new)
        (placed_line place text.now)) }
    ensures err { OnErr result (AppendsFront (E.bytes err.old) (E.bytes err.new)
        (placed_line place text.now)) }
    ensures failed { OnErr result (HasRisen (E.faults err.old) (E.faults err.new)) }
{
    let mut line_buffer = Buffer::new();
    let mut col_buffer = Buffer::new();
    let line = line_buffer.format(place.line);
    let col = col_buffer.format(place.col);
    write_pieces(
        err,
        &[
            b"comet: ",
            line.as_bytes(),
            b":",
            col.as_bytes(),
            b": ",
            text.as_bytes(),
            b"\n",
        ],
    )?;
    Ok(())
}

/// Writes a line with a place, a code behind its letter, and a text.
fn write_coded<E: Sink>(
    err: &mut E,
    place: Place,
    letter: &[u8],
    code: u8,
    text: &str,
) -> Result<(), Failed>
    ensures ok { OnOk result (Appends (E.bytes err.old) (E.bytes err.new)
        (coded_line place letter.now code text.now)) }
    ensures err { OnErr result (AppendsFront (E.bytes err.old) (E.bytes err.new)
        (coded_line place letter.now code text.now)) }
    ensures failed { OnErr result (HasRisen (E.faults err.old) (E.faults err.new)) }
{
    let mut line_buffer = Buffer::new();
    let mut col_buffer = Buffer::new();
    let mut code_buffer = Buffer::new();
    let line = line_buffer.format(place.line);
    let col = col_buffer.format(place.col);
    let code = code_buffer.format(code);
    write_pieces(
        err,
        &[
            b"comet: ",
            line.as_bytes(),
            b":",
            col.as_bytes(),
            letter,
            code.as_bytes(),
            b" ",
            text.as_bytes(),
            b"\n",
        ],
    )?;
    Ok(())
}

/// Writes a line with a place, and the code and the text of a run fault.
fn write_fault<E: Sink>(err: &mut E, place: Place, fault: RunFault) -> Result<(), Failed>
    ensures ok { OnOk result (Appends (E.bytes err.old) (E.bytes err.new)
        (fault_line place fault)) }
    ensures err { OnErr result (AppendsFront (E.bytes err.old) (E.bytes err.new)
        (fault_line place fault)) }
    ensures failed { OnErr result (HasRisen (E.faults err.old) (E.faults err.new)) }
{
    write_coded(err, place, b": F", fault.code(), fault.text())?;
    Ok(())
}

/// Writes a line with a place, and the code and the text of a typing rule.
fn write_type<E: Sink>(err: &mut E, place: Place, code: u8) -> Result<(), Failed>
    ensures ok { OnOk result (Appends (E.bytes err.old) (E.bytes err.new) (type_line place code)) }
    ensures err { OnErr result (AppendsFront (E.bytes err.old) (E.bytes err.new)
        (type_line place code)) }
    ensures failed { OnErr result (HasRisen (E.faults err.old) (E.faults err.new)) }
{
    write_coded(err, place, b": T", code, text_of_type(code))?;
    Ok(())
}

/// Writes a name with an arrow behind it.
fn write_arrowed<E: Sink>(err: &mut E, name: &Text) -> Result<(), Failed>
    ensures ok { OnOk result (Appends (E.bytes err.old) (E.bytes err.new) (arrowed name.now)) }
    ensures err { OnErr result (AppendsFront (E.bytes err.old) (E.bytes err.new)
        (arrowed name.now)) }
    ensures failed { OnErr result (HasRisen (E.faults err.old) (E.faults err.new)) }
    ensures never_falls { E.faults err.old ≤ E.faults err.new }
{
    write_pieces(err, &[name.as_slice(), b" -> "])?;
    Ok(())
}

/// Writes names, each with an arrow behind it.
fn write_arrows<E: Sink>(err: &mut E, names: &[Text]) -> Result<(), Failed>
    ensures ok { OnOk result (Appends (E.bytes err.old) (E.bytes err.new)
        (joined (map arrowed names.now))) }
    ensures err { OnErr result (AppendsFront (E.bytes err.old) (E.bytes err.new)
        (joined (map arrowed names.now))) }
    ensures failed { OnErr result (HasRisen (E.faults err.old) (E.faults err.new)) }
    ensures never_falls { E.faults err.old ≤ E.faults err.new }
{
    for name in names {
        write_arrowed(err, name)?;
    }
    Ok(())
}

/// Writes the front of a cycle's line, up to the first name.
fn write_cycle_start<E: Sink>(err: &mut E, place: Place) -> Result<(), Failed>
    ensures ok { OnOk result (Appends (E.bytes err.old) (E.bytes err.new)
        (joined (cycle_start place))) }
    ensures err { OnErr result (AppendsFront (E.bytes err.old) (E.bytes err.new)
        (joined (cycle_start place))) }
    ensures failed { OnErr result (HasRisen (E.faults err.old) (E.faults err.new)) }
    ensures never_falls { E.faults err.old ≤ E.faults err.new }
{
    let mut line_buffer = Buffer::new();
    let mut col_buffer = Buffer::new();
    let line = line_buffer.format(place.line);
    let col = col_buffer.format(place.col);
    write_pieces(
        err,
        &[
            b"comet: ",
            line.as_bytes(),
            b":",
            col.as_bytes(),
            b": cyclic definition: ",
        ],
    )?;
    Ok(())
}

/// The first of some names, and nothing where there is none.
fn first_name(names: &[Text]) -> &[u8]
    ensures { result.now ≡ first_of names.now }
{
    match names.split_first() {
        None => b"",
        Some((first, _)) => first.as_slice(),
    }
}

/// Writes the end of a cycle's line: the first name again.
fn write_cycle_end<E: Sink>(err: &mut E, names: &[Text]) -> Result<(), Failed>
    ensures ok { OnOk result (Appends (E.bytes err.old) (E.bytes err.new)
        (joined (cycle_end names.now))) }
    ensures err { OnErr result (AppendsFront (E.bytes err.old) (E.bytes err.new)
        (joined (cycle_end names.now))) }
    ensures failed { OnErr result (HasRisen (E.faults err.old) (E.faults err.new)) }
{
    write_pieces(err, &[first_name(names), b"\n"])?;
    Ok(())
}

/// Writes a line with the place of a `close` and the names on a cycle, the first again at the end.
fn write_cycle<E: Sink>(err: &mut E, place: Place, names: &[Text]) -> Result<(), Failed>
    ensures ok { OnOk result (Appends (E.bytes err.old) (E.bytes err.new)
        (cycle_line place names.now)) }
    ensures err { OnErr result (AppendsFront (E.bytes err.old) (E.bytes err.new)
        (cycle_line place names.now)) }
    ensures failed { OnErr result (HasRisen (E.faults err.old) (E.faults err.new)) }
{
    write_cycle_start(err, place)?;
    write_arrows(err, names)?;
    write_cycle_end(err, names)?;
    Ok(())
}

/// Writes the line of a cause.
fn write_line<E: Sink>(cause: &Cause, err: &mut E) -> Result<(), Failed>
    ensures ok { OnOk result (Appends (E.bytes err.old) (E.bytes err.new) (line_of cause.now)) }
    ensures err { OnErr result (AppendsFront (E.bytes err.old) (E.bytes err.new)
        (line_of cause.now)) }
    ensures failed { OnErr result (HasRisen (E.faults err.old) (E.faults err.new)) }
{
    match cause {
        Cause::Done => Ok(()),
        Cause::Words => write_plain(err, USAGE),
        Cause::IllFormed(place, form) => write_placed(err, *place, text_of_form(*form)),
        Cause::IllTyped(place, code) => write_type(err, *place, *code),
        Cause::Cyclic(place, names) => write_cycle(err, *place, names.as_slice()),
        Cause::Run(place, fault) => write_fault(err, *place, *fault),
        Cause::Spent(place) => write_placed(err, *place, "fuel spent"),
        Cause::NoMemory => write_plain(err, "no memory"),
        Cause::Read(role) => write_plain(err, text_of_role(*role)),
        Cause::Write => write_plain(err, "cannot write"),
    }
}

/// Writes the line of a cause; `Done` has none. It takes no memory. Where the sink fails, a front of the
/// line is written and nothing else happens.
pub fn say<E: Sink>(cause: &Cause, err: &mut E)
    ensures whole { ¬ HasRisen (E.faults err.old) (E.faults err.new) →
        Appends (E.bytes err.old) (E.bytes err.new) (line_of cause.now) }
    ensures front { AppendsFront (E.bytes err.old) (E.bytes err.new) (line_of cause.now) }
{
    match write_line(cause, err) {
        Ok(()) => (),
        Err(Failed) => (),
    }
}
