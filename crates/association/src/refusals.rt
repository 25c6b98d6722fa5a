// A fresh record; refusals 6 and 3; whether bytes are dropped; the length field; a refused answer.
ghost use Rattle.std.specs.Prelude.{◌≡◌};
ghost use Rattle.numbers.specs.Refusals.{refusal_in};
ghost use Rattle.association.specs.Record.{standing, idle, dropping as droppingOf, timed as timedOf, stray_state, overfull as overfullOf, stray_deaf, mistimed as mistimedOf, bad_length, marked_idle, broken as brokenOf};
ghost use Rattle.framing.specs.Framing.{length_field};
ghost use Rattle.association.specs.Refusals.{record_refusal, refused_with};

use crate::{Answer, Assoc, Told};
use numbers::Refusal;

// State 1, and all else 0.
#[tactic(auto, unfolding(crate::specs::Record::idle))]
pub fn fresh() -> Assoc
    ensures { result ≡ idle }
{
    Assoc {
        state: 1,
        gathered: 0,
        deaf: false,
        artim: false,
        requestor: false,
        peer_max: 0,
    }
}

// Whether received bytes are used and dropped.
#[tactic(auto, unfolding(crate::specs::Record::dropping))]
pub fn dropping(a: Assoc) -> bool
    ensures { result ≡ droppingOf (standing a) }
{
    matches!(a.state, 1 | 4) || a.deaf
}

#[tactic(auto, unfolding(crate::specs::Record::timed))]
fn timed(state: u8) -> bool
    ensures { result ≡ timedOf state }
{
    matches!(state, 2 | 13)
}

#[tactic(auto, unfolding(crate::specs::Record::stray_state))]
fn stray_state(a: Assoc) -> bool
    ensures { result ≡ stray_state a }
{
    !(1..=13).contains(&a.state)
}

#[tactic(auto, unfolding(crate::specs::Record::overfull))]
fn overfull(a: Assoc) -> bool
    ensures { result ≡ overfullOf a }
{
    16389 < a.gathered || (dropping(a) && 0 < a.gathered)
}

#[tactic(auto, unfolding(crate::specs::Record::stray_deaf))]
fn stray_deaf(a: Assoc) -> bool
    ensures { result ≡ stray_deaf a }
{
    a.deaf && a.state != 13
}

#[tactic(auto, unfolding(crate::specs::Record::mistimed))]
fn mistimed(a: Assoc) -> bool
    ensures { result ≡ mistimedOf a }
{
    a.artim != timed(a.state)
}

#[tactic(auto, unfolding(crate::specs::Record::marked_idle))]
fn marked_idle(a: Assoc) -> bool
    ensures { result ≡ marked_idle a }
{
    a.state == 1 && (a.requestor || a.peer_max != 0)
}

#[tactic(auto, unfolding(crate::specs::Record::broken, crate::specs::Record::clauses))]
fn broken(a: Assoc) -> bool
    ensures { result ≡ brokenOf a }
{
    stray_state(a) || overfull(a) || stray_deaf(a) || mistimed(a) || marked_idle(a)
}

// The length field of a header.
#[tactic(auto, unfolding(framing::specs::Framing::length_field))]
pub fn length_field(gather: &[u8]) -> usize
    ensures { result ≡ length_field gather.now }
{
    octets::be32_at(gather, 2) as usize
}

#[tactic(auto, unfolding(crate::specs::Record::bad_length))]
fn bad_length(gathered: usize, gather: &[u8]) -> bool
    ensures { result ≡ bad_length gathered gather.now }
{
    if gathered < numbers::HEADER {
        return false;
    }
    let length = length_field(gather);
    numbers::LONGEST < length || numbers::HEADER + length <= gathered
}

// 6 but for the length field; 3 where the gather buffer has fewer than `least` bytes; 6 for the length field.
#[tactic(auto, unfolding(crate::specs::Refusals::record_refusal))]
pub fn record_refusal(a: Assoc, gather: &[u8], least: usize) -> Result<(), Refusal>
    ensures { refusal_in result ≡ record_refusal a gather.now least }
{
    if broken(a) {
        return Err(Refusal::BrokenRecord);
    }
    if gather.len() < least {
        return Err(Refusal::ShortGather);
    }
    if bad_length(a.gathered, gather) {
        return Err(Refusal::BrokenRecord);
    }
    Ok(())
}

// The answer of a refused call.
#[tactic(auto, unfolding(crate::specs::Refusals::refused_with))]
pub fn refused(number: u8, a: Assoc) -> Answer
    ensures { result ≡ refused_with number a }
{
    Answer {
        told: Told {
            refusal: number,
            action: table::NO_ACTION,
            used: 0,
            sent: 0,
            shown: 0,
        },
        assoc: a,
    }
}
