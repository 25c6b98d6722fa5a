// The host of the machine calls: the record and the two buffers, which stay from one machine call to the next.
use crate::buffers::{BUFFER, Buffer, IN_GATHER, IN_OUTPUT};
use crate::digits::decimal;
use crate::print::{Numbers, print};
use crate::words::Words;
use association::{Answer, Assoc};

#[derive(Drop)]
pub(crate) struct Host {
    assoc: Assoc,
    gather: Buffer<BUFFER>,
    out: Buffer<BUFFER>,
}

// The RECORD of a machine call: `=`, or what the call starts from. No Option: it stands in the Option that says whether the words are a RECORD.
#[derive(Clone, Copy)]
pub(crate) enum Record<'a> {
    Same,
    New {
        assoc: Assoc,
        gather_len: usize,
        gather: &'a [u8],
        out_len: usize,
    },
}

impl<'a> Record<'a> {
    pub(crate) fn read(words: &mut Words<'a>) -> Option<Record<'a>> {
        let first = words.word()?;
        if &*first == b"=".as_slice() {
            return Some(Record::Same);
        }
        let assoc = Assoc {
            state: u8::try_from(decimal(first)?).ok()?,
            gathered: words.count()?,
            deaf: words.mark()?,
            artim: words.mark()?,
            requestor: words.mark()?,
            peer_max: words.long()?,
        };
        let gather_len = words.length()?;
        let gather = words.bytes()?;
        let out_len = words.length()?;
        if gather_len < gather.len() {
            return None;
        }
        Some(Record::New {
            assoc,
            gather_len,
            gather,
            out_len,
        })
    }
}

impl Host {
    // A fresh association, and room for any PDU.
    pub(crate) fn new() -> Host {
        Host {
            assoc: association::fresh(),
            gather: Buffer::new(IN_GATHER, numbers::BUFFER),
            out: Buffer::new(IN_OUTPUT, numbers::BUFFER),
        }
    }

    // What a RECORD says.
    fn start(&mut self, record: Record) {
        if let Record::New {
            assoc,
            gather_len,
            gather,
            out_len,
        } = record
        {
            self.assoc = assoc;
            self.gather.set(IN_GATHER, gather_len, gather);
            self.out.set(IN_OUTPUT, out_len, &[]);
        }
    }

    // A machine call: from what its RECORD says on, it is lent both buffers. Prints the answer, the record after it and the digests of both buffers.
    pub(crate) fn call<F>(&mut self, rt: &impl Print, record: Record, call: F)
    where
        F: FnOnce(Assoc, &mut [u8], &mut [u8]) -> Answer,
        requires { F.IsAlwaysCallable call }
    {
        self.start(record);
        let Answer { told, assoc } = call(self.assoc, self.gather.lend(), self.out.lend());
        self.assoc = assoc;
        print(
            rt,
            Numbers(&[
                u64::from(told.refusal),
                u64::from(told.action),
                told.used as u64,
                told.sent as u64,
                told.shown as u64,
                u64::from(assoc.state),
                assoc.gathered as u64,
                u64::from(assoc.deaf),
                u64::from(assoc.artim),
                u64::from(assoc.requestor),
                u64::from(assoc.peer_max),
                self.gather.digest(),
                self.out.digest(),
            ]),
        );
    }
}
