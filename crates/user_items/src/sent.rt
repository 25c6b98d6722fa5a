// The user information that a host gives: whether it may be sent.
ghost use Rattle.std.specs.Prelude.{◌≡◌, ◌||◌};
ghost use Rattle.laws.specs.Lists.{empty};
ghost use Rattle.user_items.specs.Kinds.{version_ok};
ghost use Rattle.user_items.specs.Sent.{user_said, user_good};

use crate::body::version_ok;

// The implementation class UID, the version name, the operations invoked and performed, the role sheet.
#[derive(Clone, Copy)]
pub struct User<'a> {
    pub class_uid: &'a [u8],
    // Empty: none is sent.
    pub version_name: &'a [u8],
    pub invoked: u16,
    pub performed: u16,
    pub roles: &'a [u8],
}

// Whether v is empty or a version name.
fn version_good(v: &[u8]) -> bool
    ensures { result ≡ (empty v.now || version_ok v.now) }
{
    v.is_empty() || version_ok(v)
}

// Whether this may be sent: the class UID is a name, the version name is good where there is one, and so is the role sheet. Any counts are.
#[tactic(auto, using(crate::proofs::ContentLaws::count_fits), unfolding(crate::specs::Sent::user_good))]
pub fn user_good(user: User<'_>) -> bool
    ensures { result ≡ user_good (user_said user.entry) }
{
    names::name_ok(user.class_uid) && version_good(user.version_name) && roles::roles_ok(user.roles)
}
