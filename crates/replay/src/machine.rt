// The machine calls, each on a record, a gather buffer and an output.
use crate::associate::{accept_in, request_in};
use crate::host::{Host, Record};
use crate::words::Words;

// r RECORD PIECE
pub(crate) fn receive(rt: &impl Print, mut words: Words, host: &mut Host) -> Option<()> {
    let record = Record::read(&mut words)?;
    let piece = words.bytes()?;
    words.end()?;
    host.call(rt, record, |a, gather, out| {
        receiving::receive(a, gather, piece, out)
    });
    Some(())
}

// e RECORD NUMBER
pub(crate) fn event(rt: &impl Print, mut words: Words, host: &mut Host) -> Option<()> {
    let record = Record::read(&mut words)?;
    let number = words.byte()?;
    words.end()?;
    host.call(rt, record, |a, gather, out| {
        requests::event(a, number, gather, out)
    });
    Some(())
}

// c RECORD CALLED CALLING APPLICATION USER SHEET
pub(crate) fn confirm(rt: &impl Print, mut words: Words, host: &mut Host) -> Option<()> {
    let record = Record::read(&mut words)?;
    let fields = request_in(&mut words)?;
    words.end()?;
    host.call(rt, record, |a, gather, out| {
        requests::confirm(a, fields, gather, out)
    });
    Some(())
}

// a RECORD ECHOED APPLICATION USER SHEET
pub(crate) fn accept(rt: &impl Print, mut words: Words, host: &mut Host) -> Option<()> {
    let record = Record::read(&mut words)?;
    let fields = accept_in(&mut words)?;
    words.end()?;
    host.call(rt, record, |a, gather, out| {
        requests::accept(a, fields, gather, out)
    });
    Some(())
}

// j RECORD RESULT SOURCE REASON
pub(crate) fn reject(rt: &impl Print, mut words: Words, host: &mut Host) -> Option<()> {
    let record = Record::read(&mut words)?;
    let res = words.byte()?;
    let source = words.byte()?;
    let reason = words.byte()?;
    words.end()?;
    host.call(rt, record, |a, gather, out| {
        requests::reject(a, res, source, reason, gather, out)
    });
    Some(())
}

// d RECORD ITEMS
pub(crate) fn send(rt: &impl Print, mut words: Words, host: &mut Host) -> Option<()> {
    let record = Record::read(&mut words)?;
    let items = words.bytes()?;
    words.end()?;
    host.call(rt, record, |a, gather, out| {
        requests::send(a, items, gather, out)
    });
    Some(())
}
