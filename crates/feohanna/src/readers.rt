// The fields of each kind of PDU. Where a read is refused the numbers handed out are 0. A number for each field is the C interface: a function that stored the fields of both an RQ and an AC
// would have as long a row of them once more.
ghost use Rattle.std.specs.Prelude.{◌≡◌};
ghost use Rattle.numbers.specs.Kinds.{ASSOCIATE-RQ, ASSOCIATE-AC};
ghost use Rattle.numbers.specs.Refusals.{refusal_in};
ghost use Rattle.reading.specs.Associate.{Read};
ghost use Rattle.reading.specs.Values.{reject_in, abort_in};
ghost use Rattle.reading.specs.Data.{data_of, data_at};
ghost use Rattle.feohanna.specs.Fields.{associate, reject, abort, pdv_fields};

use numbers::Refusal;

// A refusal's number, 0 for none.
fn refusal_in<T: Copy>(read: Result<T, Refusal>) -> u8
    ensures { result ≡ refusal_in read }
{
    match read {
        Ok(_) => numbers::NOT_REFUSED,
        Err(refusal) => refusal.number(),
    }
}

#[unsafe(no_mangle)]
pub extern "C" fn feo_raw_read_request(
    pdu: &[u8],
    sheet: &mut [u8],
    roles: &mut [u8],
    version: &mut u16,
    application_at: &mut usize,
    application_len: &mut usize,
    maximum: &mut u32,
    records: &mut usize,
    class_at: &mut usize,
    class_len: &mut usize,
    version_name_at: &mut usize,
    version_name_len: &mut usize,
    invoked: &mut u16,
    performed: &mut u16,
    role_records: &mut usize,
) -> u8
    ensures { Read ASSOCIATE-RQ pdu.now sheet.old roles.old
        (associate result version.new application_at.new application_len.new maximum.new records.new
        class_at.new class_len.new version_name_at.new version_name_len.new invoked.new performed.new role_records.new)
        sheet.new roles.new }
{
    let read = reading::read_request(pdu, sheet, roles);
    let f = read.unwrap_or_default();
    let class = f.class.unwrap_or_default();
    let name = f.version_name.unwrap_or_default();
    *version = f.version;
    *application_at = f.application.at;
    *application_len = f.application.len;
    *maximum = f.maximum;
    *records = f.records;
    *class_at = class.at;
    *class_len = class.len;
    *version_name_at = name.at;
    *version_name_len = name.len;
    *invoked = f.invoked;
    *performed = f.performed;
    *role_records = f.roles;
    refusal_in(read)
}

#[unsafe(no_mangle)]
pub extern "C" fn feo_raw_read_accept(
    pdu: &[u8],
    sheet: &mut [u8],
    roles: &mut [u8],
    version: &mut u16,
    application_at: &mut usize,
    application_len: &mut usize,
    maximum: &mut u32,
    records: &mut usize,
    class_at: &mut usize,
    class_len: &mut usize,
    version_name_at: &mut usize,
    version_name_len: &mut usize,
    invoked: &mut u16,
    performed: &mut u16,
    role_records: &mut usize,
) -> u8
    ensures { Read ASSOCIATE-AC pdu.now sheet.old roles.old
        (associate result version.new application_at.new application_len.new maximum.new records.new
        class_at.new class_len.new version_name_at.new version_name_len.new invoked.new performed.new role_records.new)
        sheet.new roles.new }
{
    let read = reading::read_accept(pdu, sheet, roles);
    let f = read.unwrap_or_default();
    let class = f.class.unwrap_or_default();
    let name = f.version_name.unwrap_or_default();
    *version = f.version;
    *application_at = f.application.at;
    *application_len = f.application.len;
    *maximum = f.maximum;
    *records = f.records;
    *class_at = class.at;
    *class_len = class.len;
    *version_name_at = name.at;
    *version_name_len = name.len;
    *invoked = f.invoked;
    *performed = f.performed;
    *role_records = f.roles;
    refusal_in(read)
}

#[unsafe(no_mangle)]
pub extern "C" fn feo_raw_read_reject(
    pdu: &[u8],
    res: &mut u8,
    source: &mut u8,
    reason: &mut u8,
) -> u8
    ensures { reject result res.new source.new reason.new ≡ reject_in pdu.now }
{
    let read = reading::read_reject(pdu);
    let f = read.unwrap_or_default();
    *res = f.result;
    *source = f.source;
    *reason = f.reason;
    refusal_in(read)
}

#[unsafe(no_mangle)]
pub extern "C" fn feo_raw_read_abort(pdu: &[u8], source: &mut u8, reason: &mut u8) -> u8
    ensures { abort result source.new reason.new ≡ abort_in pdu.now }
{
    let read = reading::read_abort(pdu);
    let f = read.unwrap_or_default();
    *source = f.source;
    *reason = f.reason;
    refusal_in(read)
}

// The PDV of this number, from 0.
#[unsafe(no_mangle)]
pub extern "C" fn feo_raw_read_data(
    pdu: &[u8],
    number: usize,
    id: &mut u8,
    control: &mut u8,
    start: &mut usize,
    length: &mut usize,
) -> u8
    ensures { pdv_fields result id.new control.new start.new length.new ≡ data_of pdu.now number }
{
    let read = reading::read_data(pdu, number);
    let f = read.unwrap_or_default();
    *id = f.id;
    *control = f.control;
    *start = f.start;
    *length = f.len;
    refusal_in(read)
}

// The PDV item at this place of the PDU, by itself.
#[unsafe(no_mangle)]
pub extern "C" fn feo_raw_pdv_at(
    pdu: &[u8],
    at: usize,
    id: &mut u8,
    control: &mut u8,
    start: &mut usize,
    length: &mut usize,
) -> u8
    ensures { pdv_fields result id.new control.new start.new length.new ≡ data_at pdu.now at }
{
    let read = reading::pdv_at(pdu, at);
    let item = read.unwrap_or_default();
    *id = item.id;
    *control = item.control;
    *start = item.start;
    *length = item.len;
    refusal_in(read)
}
