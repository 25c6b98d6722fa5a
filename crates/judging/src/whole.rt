// The bytes of one PDU, and whether they are a valid one of a kind.
ghost use Rattle.std.specs.Prelude.{◌≡◌, true, false, MatchOption};
ghost use Rattle.numbers.specs.Kinds.{type_byte};
ghost use Rattle.octets.specs.Octets.{odd};
ghost use Rattle.judging.specs.Pdu.{version_of, whole, request_ok, accept_ok, reject_pdu_ok, data_ok, release_ok, abort_pdu_ok, valid_as};

use numbers::Kind;

// All bytes of one PDU: as many as its PDU-length says, which is within the limit.
#[derive(Clone, Copy)]
pub(crate) struct Whole<'a> {
    pdu: &'a [u8],
    ghost is_whole: { whole pdu.now ≡ true },
}

// Whether the version of an RQ or AC has bit 0.
pub(crate) fn has_version(pdu: &[u8]) -> bool
    ensures { result ≡ odd (version_of pdu.now) }
{
    octets::be16_at(pdu, 6) % 2 == 1
}

impl<'a> Whole<'a> {
    #[tactic(auto, unfolding(crate::specs::Pdu::whole))]
    pub(crate) fn of(pdu: &'a [u8]) -> Option<Whole<'a>>
        ensures { MatchOption result (whole pdu.now ≡ false) (λ w. w.pdu ≡ pdu.entry) }
    {
        if pdu.len() < numbers::HEADER {
            return None;
        }
        let n = octets::be32_at(pdu, 2) as usize;
        if pdu.len() - numbers::HEADER == n && n <= numbers::LONGEST {
            Some(Whole { pdu })
        } else {
            None
        }
    }

    // Whether the PDU is valid as one of that kind.
    #[tactic(auto, unfolding(crate::specs::Pdu::valid_as))]
    pub(crate) fn is_valid(self, kind: Kind) -> bool
        ensures { result ≡ valid_as (type_byte kind) self.entry.pdu.now }
    {
        match kind {
            Kind::AssociateRq => self.request_ok(),
            Kind::AssociateAc => self.accept_ok(),
            Kind::AssociateRj => self.reject_ok(),
            Kind::DataTf => self.data_ok(),
            Kind::ReleaseRq | Kind::ReleaseRp => self.release_ok(),
            Kind::Abort => self.abort_ok(),
        }
    }

    #[tactic(auto, using(crate::proofs::KindLaws::below_68, crate::proofs::KindLaws::from_68), unfolding(crate::specs::Pdu::request_ok))]
    fn request_ok(self) -> bool
        ensures { result ≡ request_ok self.entry.pdu.now }
    {
        let pdu = self.pdu;
        74 <= pdu.len()
            && titles::title_ok(&pdu[10..26])
            && titles::title_ok(&pdu[26..42])
            && contents::items_ok(0x20, &pdu[74..])
    }

    #[tactic(auto, using(crate::proofs::KindLaws::below_68, crate::proofs::KindLaws::from_68), unfolding(crate::specs::Pdu::accept_ok))]
    fn accept_ok(self) -> bool
        ensures { result ≡ accept_ok self.entry.pdu.now }
    {
        let pdu = self.pdu;
        74 <= pdu.len() && has_version(pdu) && contents::items_ok(0x21, &pdu[74..])
    }

    #[tactic(auto, using(crate::proofs::KindLaws::four_not, crate::proofs::KindLaws::four_is), unfolding(crate::specs::Pdu::reject_pdu_ok))]
    fn reject_ok(self) -> bool
        ensures { result ≡ reject_pdu_ok self.entry.pdu.now }
    {
        let pdu = self.pdu;
        pdu.len() == numbers::TEN && reasons::reject_ok(pdu[7], pdu[8], pdu[9])
    }

    #[tactic(auto, using(crate::proofs::KindLaws::whole_six), unfolding(crate::specs::Pdu::data_ok))]
    fn data_ok(self) -> bool
        ensures { result ≡ data_ok self.entry.pdu.now }
    {
        pdvs::pdvs_ok(255, &self.pdu[numbers::HEADER..])
    }

    #[tactic(auto, using(crate::proofs::KindLaws::ten_four), unfolding(crate::specs::Pdu::release_ok))]
    fn release_ok(self) -> bool
        ensures { result ≡ release_ok self.entry.pdu.now }
    {
        self.pdu.len() == numbers::TEN
    }

    #[tactic(auto, using(crate::proofs::KindLaws::four_not, crate::proofs::KindLaws::four_is), unfolding(crate::specs::Pdu::abort_pdu_ok))]
    fn abort_ok(self) -> bool
        ensures { result ≡ abort_pdu_ok self.entry.pdu.now }
    {
        let pdu = self.pdu;
        pdu.len() == numbers::TEN && reasons::abort_ok(pdu[8], pdu[9])
    }
}
