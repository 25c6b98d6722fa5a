// Writes an A-ASSOCIATE-RQ and an A-ASSOCIATE-AC, each in its one form, into a lent output.
#![tactic(auto)]

mod contexts;
mod item;
mod pdu;
mod role_items;
mod user;

ghost use Rattle.std.specs.Prelude.{◌≡◌, ◌&&◌, ◌++◌, length, replicate};
ghost use Rattle.numbers.specs.Lengths.{TITLE};
ghost use Rattle.names.specs.Name.{name_ok};
ghost use Rattle.user_items.specs.Sent.{user_said, user_good};
ghost use Rattle.writing.specs.Fields.{rq_good, ac_good};
ghost use Rattle.writing.specs.Form.{rq_form, ac_form, Wrote, sent};
ghost use Rattle.writing_associate.specs.Said.{rq_said, ac_said};

use crate::contexts::Side;
use crate::pdu::{Associate, write_pdu};
use numbers::Refusal;
use user_items::User;

// The contents of an A-ASSOCIATE-RQ: the titles, the application name, the user information, the proposal sheet.
#[derive(Clone, Copy)]
pub struct Request<'a> {
    pub called: &'a [u8],
    pub calling: &'a [u8],
    pub application: &'a [u8],
    pub user: User<'a>,
    pub sheet: &'a [u8],
}

// The contents of an A-ASSOCIATE-AC: the RQ's PDU bytes 11 to 74, the application name, the user information, the answer sheet.
#[derive(Clone, Copy)]
pub struct Accept<'a> {
    pub echoed: &'a [u8],
    pub application: &'a [u8],
    pub user: User<'a>,
    pub sheet: &'a [u8],
}

// The 64 bytes behind the version of an RQ: the titles, and 32 reserved bytes.
fn titles_of(called: &[u8], calling: &[u8]) -> [u8; 64]
    requires { (length called.now ≡ TITLE) × (length calling.now ≡ TITLE) }
    ensures { result ≡ called.now ++ (calling.now ++ replicate 32 0) }
{
    let mut m = [0u8; 64];
    octets::put(&mut m, 0, called);
    octets::put(&mut m, numbers::TITLE, calling);
    m
}

// What an RQ and an AC both carry beside their contexts: the application name and the user information.
fn parts_good(application: &[u8], user: User<'_>) -> bool
    ensures { result ≡ (name_ok application.now && user_good (user_said user.entry)) }
{
    names::name_ok(application) && user_items::user_good(user)
}

#[tactic(auto, unfolding(writing::specs::Fields::rq_good))]
fn request_good(fields: Request<'_>) -> bool
    ensures { result ≡ rq_good (rq_said fields.entry) }
{
    titles::title_ok(fields.called)
        && titles::title_ok(fields.calling)
        && parts_good(fields.application, fields.user)
        && sheets::proposal_ok(fields.sheet)
}

// Writes an A-ASSOCIATE-RQ to the start of the output, and says how many bytes it has.
pub fn write_request(fields: Request<'_>, out: &mut [u8]) -> Result<usize, Refusal>
    ensures { Wrote (rq_form (rq_said fields.entry)) out.old (sent result) out.new }
{
    if !request_good(fields) {
        return Err(Refusal::BadContents);
    }
    let middle = titles_of(fields.called, fields.calling);
    let f = Associate {
        side: Side::Request,
        middle: &middle,
        application: fields.application,
        user: fields.user,
        sheet: fields.sheet,
    };
    write_pdu(f, out)
}

#[tactic(auto, unfolding(writing::specs::Fields::ac_good))]
fn accept_good(fields: Accept<'_>) -> bool
    ensures { result ≡ ac_good (ac_said fields.entry) }
{
    fields.echoed.len() == 64
        && parts_good(fields.application, fields.user)
        && sheets::answers_ok(fields.sheet)
}

// Writes an A-ASSOCIATE-AC to the start of the output, and says how many bytes it has.
pub fn write_accept(fields: Accept<'_>, out: &mut [u8]) -> Result<usize, Refusal>
    ensures { Wrote (ac_form (ac_said fields.entry)) out.old (sent result) out.new }
{
    if !accept_good(fields) {
        return Err(Refusal::BadContents);
    }
    let f = Associate {
        side: Side::Accept,
        middle: fields.echoed,
        application: fields.application,
        user: fields.user,
        sheet: fields.sheet,
    };
    write_pdu(f, out)
}
