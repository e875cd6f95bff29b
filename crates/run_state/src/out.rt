//! What is printed.
ghost use Rattle.std.specs.Prelude.{◌≡◌, ◌≤◌, ◌++◌, ◌↔◌, ℕ, List, Option, None, Err, true, OnOk, IfErr, length};
ghost use Rattle.std.specs.Fmt.{signed_decimal};
ghost use Rattle.cbl_io.specs.Faults.{HasRisen};
ghost use Rattle.comet_meaning.specs.Onward.{IsFront};
ghost use Rattle.comet_meaning.specs.Printing as meaning;
ghost use Rattle.comet_meaning.specs.State as states;
ghost use Rattle.run_values.specs.Did.{Did};
ghost use Rattle.run_values.specs.declared.stop.OutStop.TheVariants.{Full, Failed};
ghost use Rattle.run_values.specs.declared.stop.Stop.TheVariants.{Output};
ghost use Rattle.run_outside.specs.Shares.{is_short, share_behind};
ghost use Rattle.run_outside.specs.Told.{beside};
ghost use Rattle.run_state.specs.Stops.{IsOutput};

use itoa::Buffer;
use run_outside::Outside;
use run_values::Stop;

/// Prints a text. It stops as the output does, and has then printed a front of the text.
#[tactic(auto, unfolding(comet_meaning::specs::Printing::print))]
pub fn print<O: Outside>(out: &mut O, text: &[u8]) -> Result<(), Stop>
    ensures did { (s : states.State) →
        Did (λ _. tt) result (beside (O.told out.new) s)
        (meaning.print text.now (beside (O.told out.old) s)) }
    ensures stop { IfErr result IsOutput }
    ensures begun { IsFront (O.told out.old).printed (O.told out.new).printed }
    ensures front { IsFront (O.told out.new).printed ((O.told out.old).printed ++ text.now) }
    ensures lowered { OnOk result (O.share out.new ≡
        share_behind (O.share out.old) (length text.now)) }
    ensures full { (result ≡ Err (Output Full)) ↔
        (is_short (O.share out.old) (length text.now) ≡ true) }
    ensures untold { O.share out.old ≡ None → O.share out.new ≡ None }
    ensures failed { result ≡ Err (Output Failed) → HasRisen (O.faults out.old) (O.faults out.new) }
    ensures never_falls { O.faults out.old ≤ O.faults out.new }
{
    out.put(text)?;
    Ok(())
}

/// Prints a number. It stops as the output does, and has then printed a front of its text.
pub(crate) fn print_number<O: Outside>(out: &mut O, number: &i64) -> Result<(), Stop>
    ensures did { (s : states.State) →
        Did (λ _. tt) result (beside (O.told out.new) s)
        (meaning.print (signed_decimal number.now) (beside (O.told out.old) s)) }
    ensures stop { IfErr result IsOutput }
    ensures begun { IsFront (O.told out.old).printed (O.told out.new).printed }
    ensures front { IsFront (O.told out.new).printed
        ((O.told out.old).printed ++ signed_decimal number.now) }
    ensures lowered { OnOk result (O.share out.new ≡
        share_behind (O.share out.old) (length (signed_decimal number.now))) }
    ensures full { (result ≡ Err (Output Full)) ↔
        (is_short (O.share out.old) (length (signed_decimal number.now)) ≡ true) }
    ensures untold { O.share out.old ≡ None → O.share out.new ≡ None }
    ensures failed { result ≡ Err (Output Failed) → HasRisen (O.faults out.old) (O.faults out.new) }
    ensures never_falls { O.faults out.old ≤ O.faults out.new }
{
    let mut buffer = Buffer::new();
    print(out, buffer.format(*number).as_bytes())
}
