// Reading an RQ and an AC.
ghost use Rattle.std.specs.Prelude.{IfOk};
ghost use Rattle.numbers.specs.Kinds.{ASSOCIATE-RQ, ASSOCIATE-AC};
ghost use Rattle.reading.specs.Associate.{associate_as, Placed, Read};
ghost use Rattle.reading.specs.Private.Records.{number_of};

use crate::user::Part;
use crate::valid::{Side, Valid};
use numbers::Refusal;

// What an RQ or AC says. The titles stand at bytes 10 and 26, 16 bytes each; the application name, the implementation class UID and the version name where the
// parts say; records and roles: how many the sheet and the role sheet start with.
#[derive(Clone, Copy, Debug, Default, PartialEq, Eq)]
pub struct Associate {
    pub version: u16,
    pub application: Part,
    pub maximum: u32,
    pub records: usize,
    pub class: Option<Part>,
    pub version_name: Option<Part>,
    pub invoked: u16,
    pub performed: u16,
    pub roles: usize,
}

// Refused by NoSuchPdu, and by ShortOutput where either sheet has too little room: then nothing is written.
fn read(side: Side, pdu: &[u8], sheet: &mut [u8], roles: &mut [u8]) -> Result<Associate, Refusal>
    ensures answer { Read (number_of side) pdu.now sheet.old roles.old (associate_as result) sheet.new roles.new }
    ensures placed { IfOk result Placed }
{
    let valid = Valid::of(side, pdu)?;
    let n = valid.counts();
    let room = sheet.len() / numbers::RECORD;
    let role_room = roles.len() / numbers::ROLE;
    if room < n.records || role_room < n.roles {
        return Err(Refusal::ShortOutput);
    }
    valid.fill(sheet, roles);
    Ok(valid.fields(n))
}

// Reads an RQ: its contexts fill the sheet, one record per transfer syntax, and its roles the role sheet.
pub fn read_request(pdu: &[u8], sheet: &mut [u8], roles: &mut [u8]) -> Result<Associate, Refusal>
    ensures answer { Read ASSOCIATE-RQ pdu.now sheet.old roles.old (associate_as result) sheet.new roles.new }
    ensures placed { IfOk result Placed }
{
    read(Side::Request, pdu, sheet, roles)
}

// Reads an AC: its contexts fill the sheet, one record each, and its roles the role sheet.
pub fn read_accept(pdu: &[u8], sheet: &mut [u8], roles: &mut [u8]) -> Result<Associate, Refusal>
    ensures answer { Read ASSOCIATE-AC pdu.now sheet.old roles.old (associate_as result) sheet.new roles.new }
    ensures placed { IfOk result Placed }
{
    read(Side::Accept, pdu, sheet, roles)
}
