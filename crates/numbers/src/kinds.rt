// The seven kinds of PDU, each by the type byte that it has.
ghost use Rattle.std.specs.Prelude.{◌≡◌};
ghost use Rattle.numbers.specs.Kinds.{type_byte, kind_number, Found};

// What stands for the number of a kind, of bytes that are none of the seven.
pub const NO_KIND: u8 = 0;

#[derive(Clone, Copy, Debug, PartialEq, Eq)]
pub enum Kind {
    AssociateRq = 1,
    AssociateAc = 2,
    AssociateRj = 3,
    DataTf = 4,
    ReleaseRq = 5,
    ReleaseRp = 6,
    Abort = 7,
}

// A byte that is no kind's.
#[derive(Clone, Copy, Debug, PartialEq, Eq)]
pub struct NoKind;

impl Kind {
    pub fn type_byte(self) -> u8
        ensures { result ≡ type_byte self }
    {
        self as u8
    }

    // A kind's number, NO_KIND for none.
    pub fn number(kind: Option<Kind>) -> u8
        ensures { result ≡ kind_number kind }
    {
        kind.map_or(NO_KIND, Kind::type_byte)
    }
}

impl TryFrom<u8> for Kind {
    type Error = NoKind;

    ghost try_from_gives = { Found };

    fn try_from(byte: u8) -> Result<Kind, NoKind> {
        match byte {
            1 => Ok(Kind::AssociateRq),
            2 => Ok(Kind::AssociateAc),
            3 => Ok(Kind::AssociateRj),
            4 => Ok(Kind::DataTf),
            5 => Ok(Kind::ReleaseRq),
            6 => Ok(Kind::ReleaseRp),
            7 => Ok(Kind::Abort),
            _ => Err(NoKind),
        }
    }
}
