// The numbers of the 28 actions, in the order of Tables 9-6 to 9-9 of PS3.8 2017e; 0 is a blank cell.
// Numbers and no enum, as the events are: next_state, artim_after, shows and sends, as cell, take any number, and their clauses speak of those that are no action's too.
pub const NO_ACTION: u8 = 0;

pub const AE_1: u8 = 1;

pub const AE_2: u8 = 2;

pub const AE_3: u8 = 3;

pub const AE_4: u8 = 4;

pub const AE_5: u8 = 5;

pub const AE_6: u8 = 6;

pub const AE_7: u8 = 7;

pub const AE_8: u8 = 8;

pub const DT_1: u8 = 9;

pub const DT_2: u8 = 10;

pub const AR_1: u8 = 11;

pub const AR_2: u8 = 12;

pub const AR_3: u8 = 13;

pub const AR_4: u8 = 14;

pub const AR_5: u8 = 15;

pub const AR_6: u8 = 16;

pub const AR_7: u8 = 17;

pub const AR_8: u8 = 18;

pub const AR_9: u8 = 19;

pub const AR_10: u8 = 20;

pub const AA_1: u8 = 21;

pub const AA_2: u8 = 22;

pub const AA_3: u8 = 23;

pub const AA_4: u8 = 24;

pub const AA_5: u8 = 25;

pub const AA_6: u8 = 26;

pub const AA_7: u8 = 27;

pub const AA_8: u8 = 28;
