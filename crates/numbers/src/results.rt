// The results of an answered context that have a name here: every other than the first refuses it.
// Numbers and no enum: a result is a byte of the PDU and of the sheet, which `answers_ok` takes whatever it is, and 1 and 2 have no name here.
pub const ACCEPTED: u8 = 0;

pub const ABSTRACT_NOT_SUPPORTED: u8 = 3;

pub const TRANSFER_NOT_SUPPORTED: u8 = 4;
