// The numbers of the 19 events, in the row order of Table 9-10. Numbers and no enum: cell and is_received take any number, and their clauses speak of those that are no event's too.
pub const ASSOCIATE_REQUEST: u8 = 1;

pub const TRANSPORT_CONFIRM: u8 = 2;

pub const AC_RECEIVED: u8 = 3;

pub const RJ_RECEIVED: u8 = 4;

pub const TRANSPORT_INDICATION: u8 = 5;

pub const RQ_RECEIVED: u8 = 6;

pub const ACCEPT_RESPONSE: u8 = 7;

pub const REJECT_RESPONSE: u8 = 8;

pub const DATA_REQUEST: u8 = 9;

pub const DATA_RECEIVED: u8 = 10;

pub const RELEASE_REQUEST: u8 = 11;

pub const RELEASE_RQ_RECEIVED: u8 = 12;

pub const RELEASE_RP_RECEIVED: u8 = 13;

pub const RELEASE_RESPONSE: u8 = 14;

pub const ABORT_REQUEST: u8 = 15;

pub const ABORT_RECEIVED: u8 = 16;

pub const TRANSPORT_CLOSED: u8 = 17;

pub const ARTIM_EXPIRED: u8 = 18;

pub const INVALID_RECEIVED: u8 = 19;
