// What a call answers, printed as one line, or `?`. A write that fails is passed over.
use numbers::{NOT_REFUSED, Refusal};
use std::fmt;

// Numbers with a space between them.
#[derive(Clone, Copy)]
pub(crate) struct Numbers<'a>(pub(crate) &'a [u64]);

impl fmt::Display for Numbers<'_> {
    fn fmt<W: fmt::Write>(&self, f: &mut fmt::Formatter<W>) -> fmt::Result {
        if let [first, others @ ..] = self.0 {
            write!(f, "{first}")?;
            for n in others {
                write!(f, " {n}")?;
            }
        }
        Ok(())
    }
}

// What a call tells that may be refused: its refusal, 0 for none, then its numbers, each 0 where it is refused.
#[derive(Clone, Copy)]
pub(crate) struct Told<const N: usize>(pub(crate) Result<[u64; N], Refusal>);

impl<const N: usize> fmt::Display for Told<N> {
    fn fmt<W: fmt::Write>(&self, f: &mut fmt::Formatter<W>) -> fmt::Result {
        match self.0 {
            Ok(numbers) => write!(f, "{} {}", NOT_REFUSED, Numbers(&numbers)),
            Err(refusal) => write!(f, "{} {}", refusal.number(), Numbers(&[0; N])),
        }
    }
}

// Bytes in hex, `-` for none.
#[derive(Clone, Copy)]
pub(crate) struct Hex<'a>(pub(crate) &'a [u8]);

impl fmt::Display for Hex<'_> {
    fn fmt<W: fmt::Write>(&self, f: &mut fmt::Formatter<W>) -> fmt::Result {
        if self.0.is_empty() {
            return f.write_str("-");
        }
        for b in self.0 {
            write!(f, "{b:02x}")?;
        }
        Ok(())
    }
}

pub(crate) fn print(rt: &impl Print, answer: impl fmt::Display + Drop) {
    let _ = rt.println(answer);
}

// 1 for yes, 0 for no.
pub(crate) fn yes_or_no(rt: &impl Print, yes: bool) {
    print(rt, u8::from(yes));
}

// The answer to a line that is no call.
pub(crate) fn no_call(rt: &impl Print) {
    print(rt, "?");
}
