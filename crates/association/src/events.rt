// The events by their numbers; the A-ABORT that answers a received one, the cell of a local one. Kind, event and state stay numbers, since these functions take any, and their clauses say
// what they answer for each.
ghost use Rattle.std.specs.Prelude.{◌≡◌};
ghost use Rattle.association.specs.Events.{event_of_kind};
ghost use Rattle.association.specs.Performing.{abort_for};
ghost use Rattle.association.specs.Machine.{local_cell};

use numbers::Kind;

// The event of a PDU of a kind, 1 to 7, or of an invalid one.
#[tactic(auto, unfolding(crate::specs::Events::event_of_kind))]
pub fn event_of_kind(kind: u8) -> u8
    ensures { result ≡ event_of_kind kind }
{
    match Kind::try_from(kind) {
        Ok(Kind::AssociateRq) => table::RQ_RECEIVED,
        Ok(Kind::AssociateAc) => table::AC_RECEIVED,
        Ok(Kind::AssociateRj) => table::RJ_RECEIVED,
        Ok(Kind::DataTf) => table::DATA_RECEIVED,
        Ok(Kind::ReleaseRq) => table::RELEASE_RQ_RECEIVED,
        Ok(Kind::ReleaseRp) => table::RELEASE_RP_RECEIVED,
        Ok(Kind::Abort) => table::ABORT_RECEIVED,
        Err(_) => table::INVALID_RECEIVED,
    }
}

// The number of the A-ABORT by which a received PDU of a type is answered at an event.
#[tactic(auto, unfolding(crate::specs::Performing::abort_for))]
pub fn abort_for(event: u8, first: u8) -> u8
    ensures { result ≡ abort_for event first }
{
    if event != table::INVALID_RECEIVED {
        return writing::ABORT_UNEXPECTED;
    }
    match first {
        1..=7 => writing::ABORT_INVALID,
        _ => writing::ABORT_UNRECOGNIZED,
    }
}

// The action at a local event, by its number, in a state; 0 where its cell is blank, and for a number that is no local event's.
#[tactic(auto, unfolding(crate::specs::Machine::local_cell))]
pub fn local_cell(number: u8, state: u8) -> u8
    ensures { result ≡ local_cell number state }
{
    if table::is_received(number) {
        return table::NO_ACTION;
    }
    table::cell(number, state)
}
