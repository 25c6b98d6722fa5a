// The words of an RQ or an AC that is to be written.
use crate::words::Words;
use user_items::User;
use writing_associate::{Accept, Request};

fn user_in<'a>(words: &mut Words<'a>) -> Option<User<'a>> {
    Some(User {
        class_uid: words.bytes()?,
        version_name: words.bytes()?,
        invoked: words.short()?,
        performed: words.short()?,
        roles: words.sheet()?,
    })
}

pub(crate) fn request_in<'a>(words: &mut Words<'a>) -> Option<Request<'a>> {
    Some(Request {
        called: words.bytes()?,
        calling: words.bytes()?,
        application: words.bytes()?,
        user: user_in(words)?,
        sheet: words.sheet()?,
    })
}

pub(crate) fn accept_in<'a>(words: &mut Words<'a>) -> Option<Accept<'a>> {
    Some(Accept {
        echoed: words.bytes()?,
        application: words.bytes()?,
        user: user_in(words)?,
        sheet: words.sheet()?,
    })
}
