//! Where a reading stops.

ghost use Rattle.std.specs.Prelude.{◌≡◌, ◌++◌, ◌∷◌, [], OnOk, IfErr};
ghost use Rattle.refusal.specs.declared.refusal.Refusal.TheVariants as refusals;
ghost use Rattle.proof_text.specs.Reading.{Fixed, Takes, StopsIn};

use refusal::Refusal;

/// The bytes passed do not go on as the form wants, or end too early. What is left begins where they stop.
#[derive(Drop)]
pub(crate) struct Stop;

/// That a reading stops, or want of memory.
pub(crate) type Stopped = Refusal<Stop>;

/// Whether the byte is next; goes behind it then.
#[tactic(auto, using(crate::proofs::Readings::not_next_end, crate::proofs::Readings::not_next_other))]
pub(crate) fn takes(rest: &mut &[u8], wanted: u8) -> bool
    ensures { Takes wanted result rest.old.now rest.new.now }
{
    let [byte, behind @ ..] = *rest else {
        return false;
    };
    if *byte != wanted {
        return false;
    }
    *rest = behind;
    true
}

/// Goes behind a byte, where it is next.
pub(crate) fn take_byte(rest: &mut &[u8], wanted: u8) -> Result<(), Stopped>
    ensures ok { OnOk result (rest.old.now ≡ wanted ∷ rest.new.now) }
    ensures stop { IfErr result (λ e. StopsIn (Fixed (wanted ∷ [])) e rest.old.now rest.new.now) }
{
    let [byte, behind @ ..] = *rest else {
        return Err(Refusal::Refused(Stop));
    };
    if *byte != wanted {
        return Err(Refusal::Refused(Stop));
    }
    *rest = behind;
    Ok(())
}

/// Goes behind a text, where it is next.
pub(crate) fn take_text(rest: &mut &[u8], wanted: &[u8]) -> Result<(), Stopped>
    ensures ok { OnOk result (rest.old.now ≡ wanted.now ++ rest.new.now) }
    ensures stop { IfErr result (λ e. StopsIn (Fixed wanted.now) e rest.old.now rest.new.now) }
{
    for byte in wanted {
        take_byte(rest, *byte)?;
    }
    Ok(())
}
