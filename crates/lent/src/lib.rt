// The entries that are lent the association's record: thin over the calls by value. They are two of three lines: one function that took the call as a closure would be longer than both.
#![tactic(auto)]

ghost use Rattle.std.specs.Prelude.{◌≡◌};
ghost use Rattle.association.specs.Events.{Local.plain};
ghost use Rattle.association.specs.Calls.{call, receive_of, local_of};

use association::{Answer, Assoc, Told};

// Bytes were received.
pub fn receive_lent(a: &mut Assoc, gather: &mut [u8], piece: &[u8], out: &mut [u8]) -> Told
    ensures { call (record { told = result; assoc = a.new }) gather.new out.new
        ≡ receive_of a.old gather.old piece.now out.old }
{
    let Answer { told, assoc } = receiving::receive(*a, gather, piece, out);
    *a = assoc;
    told
}

// A local event without contents, by its number.
pub fn event_lent(a: &mut Assoc, number: u8, gather: &[u8], out: &mut [u8]) -> Told
    ensures { call (record { told = result; assoc = a.new }) gather.now out.new
        ≡ local_of a.old gather.now out.old (plain number) }
{
    let Answer { told, assoc } = requests::event(*a, number, gather, out);
    *a = assoc;
    told
}
