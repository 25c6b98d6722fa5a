// A valid RQ or AC: how many records its sheets get, both filled, and its fields.
ghost use Rattle.std.specs.Prelude.{◌≡◌, ◌≢◌, ◌≤◌, length, drop, MatchResult};
ghost use Rattle.numbers.specs.Kinds.{type_byte};
ghost use Rattle.judging.specs.Pdu.{kind_of};
ghost use Rattle.octets.specs.Slice.{PartOf};
ghost use Rattle.reading.specs.Associate.{sheet_in, roles_sheet_in};
ghost use Rattle.reading.specs.Private.Records.{number_of, context_type, Counted, Filled, fields_with};

use crate::asked::of_kind;
use crate::associate::Associate;
use crate::fill::{put_contexts, rows};
use crate::role_sheet::put_roles;
use crate::user::{Part, count_in, part_at};
use numbers::{Kind, Refusal};

// Which of the two.
#[derive(Clone, Copy)]
pub(crate) enum Side {
    Request,
    Accept,
}

impl Side {
    fn kind(self) -> Kind
        ensures { type_byte result ≡ number_of self }
    {
        match self {
            Side::Request => Kind::AssociateRq,
            Side::Accept => Kind::AssociateAc,
        }
    }

    // The type of its contexts.
    #[tactic(auto, unfolding(crate::specs::Private::Records::context_type))]
    fn context_type(self) -> u8
        ensures { result ≡ context_type (number_of self) }
    {
        match self {
            Side::Request => 0x20,
            Side::Accept => 0x21,
        }
    }
}

#[derive(Clone, Copy)]
pub(crate) struct Counts {
    pub records: usize,
    pub roles: usize,
}

#[derive(Clone, Copy)]
pub(crate) struct Valid<'a> {
    side: Side,
    pdu: &'a [u8],
    ghost is_valid: { kind_of pdu.now ≡ number_of side },
}

impl<'a> Valid<'a> {
    pub(crate) fn of(side: Side, pdu: &'a [u8]) -> Result<Valid<'a>, Refusal>
        ensures { MatchResult result (λ v. (v.side ≡ side) × (v.pdu ≡ pdu.entry)) (λ e. (e ≡ Refusal.NoSuchPdu) × (kind_of pdu.now ≢ number_of side)) }
    {
        of_kind(side.kind(), pdu)?;
        Ok(Valid { side, pdu })
    }

    // What stands behind the fixed fields.
    #[tactic(auto, using(crate::proofs::ReadLaws::valid_long))]
    fn items(self) -> &'a [u8]
        ensures { PartOf self.entry.pdu 74 (drop 74 self.entry.pdu.now) result }
    {
        &self.pdu[74..]
    }

    pub(crate) fn counts(self) -> Counts
        ensures { Counted (number_of self.entry.side) self.entry.pdu.now result }
    {
        let s = self.items();
        Counts {
            records: rows(self.side.context_type(), s),
            roles: items::count_of(0x54, items::first_of(0x50, s)),
        }
    }

    pub(crate) fn fill(self, sheet: &mut [u8], roles: &mut [u8])
        requires { (length (sheet_in (number_of self.side) self.pdu.now) ≤ length sheet.old) × (length (roles_sheet_in self.pdu.now) ≤ length roles.old) }
        ensures { Filled (number_of self.entry.side) self.entry.pdu.now sheet.old roles.old sheet.new roles.new }
    {
        let s = self.items();
        put_contexts(self.side.context_type(), sheet, s);
        put_roles(roles, items::first_of(0x50, s));
    }

    pub(crate) fn fields(self, n: Counts) -> Associate
        ensures { result ≡ fields_with self.entry.pdu.now n.records n.roles }
    {
        let s = self.items();
        let u = items::first_of(0x50, s);
        let from = 74 + items::place_of(0x50, s);
        Associate {
            version: octets::be16_at(self.pdu, 6),
            application: Part {
                at: 74 + items::place_of(0x10, s),
                len: items::first_of(0x10, s).len(),
            },
            maximum: contents::maximum_in(s),
            records: n.records,
            class: part_at(0x52, from, u),
            version_name: part_at(0x55, from, u),
            invoked: count_in(0, u),
            performed: count_in(2, u),
            roles: n.roles,
        }
    }
}
