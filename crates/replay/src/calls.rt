// The table of calls: what answers each, by its letter.
use crate::host::Host;
use crate::print::no_call;
use crate::words::Words;
use crate::{machine, readers, writers};

// Prints the answer to a line, or `?` to one that is no call or too long.
pub(crate) fn answer(rt: &impl Print, line: Option<&mut [u8]>, host: &mut Host) {
    if answered(rt, line, host).is_none() {
        no_call(rt);
    }
}

// Some where the line is a call, which is then answered. The letters stand here alone, so they are matched as bytes and have no enum.
fn answered(rt: &impl Print, line: Option<&mut [u8]>, host: &mut Host) -> Option<()> {
    let (letter, rest) = line?.split_first_mut()?;
    let words = Words::new(rest);
    match *letter {
        b'r' => machine::receive(rt, words, host),
        b'e' => machine::event(rt, words, host),
        b'c' => machine::confirm(rt, words, host),
        b'a' => machine::accept(rt, words, host),
        b'j' => machine::reject(rt, words, host),
        b'd' => machine::send(rt, words, host),
        b'K' => readers::kind(rt, words),
        b'Q' => readers::request(rt, words),
        b'A' => readers::accept(rt, words),
        b'J' => readers::reject(rt, words),
        b'B' => readers::abort(rt, words),
        b'D' => readers::data(rt, words),
        b'P' => readers::pdv_at(rt, words),
        b'C' => readers::choose(rt, words),
        b'T' => readers::title_place(rt, words),
        b'N' => readers::name(rt, words),
        b'V' => readers::title(rt, words),
        b'E' => readers::titles(rt, words),
        b'1' => writers::request(rt, words),
        b'2' => writers::accept(rt, words),
        b'3' => writers::reject(rt, words),
        b'4' => writers::data(rt, words),
        b'5' => writers::release_request(rt, words),
        b'6' => writers::release_response(rt, words),
        b'7' => writers::abort(rt, words),
        _ => None,
    }
}
