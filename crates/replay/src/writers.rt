// The calls that write, into an output of OUTLEN bytes.
use crate::associate::{accept_in, request_in};
use crate::buffers::{BUFFER, Buffer, IN_OUTPUT};
use crate::print::Told;
use crate::words::Words;
use numbers::Refusal;

// The peer's maximum length for `4`: none.
const NO_LIMIT: u32 = 0;

// OUTLEN: lends an output to what writes, and prints the answer.
fn write<F>(rt: &impl Print, mut words: Words, put: F) -> Option<()>
where
    F: FnOnce(&mut [u8]) -> Result<usize, Refusal>,
    requires { F.IsAlwaysCallable put }
{
    let mut out: Buffer<BUFFER> = Buffer::new(IN_OUTPUT, words.length()?);
    words.end()?;
    let count = put(out.lend()).map(|count| [count as u64]);
    let _ = println!(rt; "{} {}", Told(count), out.digest());
    Some(())
}

// 1 CALLED CALLING APPLICATION USER SHEET OUTLEN
pub(crate) fn request(rt: &impl Print, mut words: Words) -> Option<()> {
    let fields = request_in(&mut words)?;
    write(rt, words, |out| {
        writing_associate::write_request(fields, out)
    })
}

// 2 ECHOED APPLICATION USER SHEET OUTLEN
pub(crate) fn accept(rt: &impl Print, mut words: Words) -> Option<()> {
    let fields = accept_in(&mut words)?;
    write(rt, words, |out| {
        writing_associate::write_accept(fields, out)
    })
}

// 3 RESULT SOURCE REASON OUTLEN
pub(crate) fn reject(rt: &impl Print, mut words: Words) -> Option<()> {
    let res = words.byte()?;
    let source = words.byte()?;
    let reason = words.byte()?;
    write(rt, words, |out| {
        writing::write_reject(res, source, reason, out)
    })
}

// 4 ITEMS OUTLEN
pub(crate) fn data(rt: &impl Print, mut words: Words) -> Option<()> {
    let items = words.bytes()?;
    write(rt, words, |out| writing::write_data(items, NO_LIMIT, out))
}

// 5 OUTLEN
pub(crate) fn release_request(rt: &impl Print, words: Words) -> Option<()> {
    write(rt, words, |out| writing::write_release_request(out))
}

// 6 OUTLEN
pub(crate) fn release_response(rt: &impl Print, words: Words) -> Option<()> {
    write(rt, words, |out| writing::write_release_response(out))
}

// 7 SOURCE REASON OUTLEN
pub(crate) fn abort(rt: &impl Print, mut words: Words) -> Option<()> {
    let source = words.byte()?;
    let reason = words.byte()?;
    write(rt, words, |out| writing::write_abort(source, reason, out))
}
