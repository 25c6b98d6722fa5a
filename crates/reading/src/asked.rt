// That bytes are a PDU of the kind that a reading call asks for.
ghost use Rattle.std.specs.Prelude.{◌≡◌, ◌≢◌, MatchResult};
ghost use Rattle.numbers.specs.Kinds.{type_byte};
ghost use Rattle.judging.specs.Pdu.{kind_of};

use numbers::{Kind, Refusal};

pub(crate) fn of_kind(kind: Kind, pdu: &[u8]) -> Result<(), Refusal>
    ensures { MatchResult result (λ _. kind_of pdu.now ≡ type_byte kind) (λ e. (e ≡ Refusal.NoSuchPdu) × (kind_of pdu.now ≢ type_byte kind)) }
{
    if judging::kind_of(pdu) == Some(kind) {
        Ok(())
    } else {
        Err(Refusal::NoSuchPdu)
    }
}
