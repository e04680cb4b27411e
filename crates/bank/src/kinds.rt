// The kinds of a record, by how many bytes of tab bits its body has.
ghost use Rattle.std.specs.Prelude.{◌≡◌};
ghost use Rattle.bank.specs.Records.{body_of, kind_of};

#[derive(Clone, Copy, Debug, PartialEq, Eq)]
pub enum Kind {
    Eight,
    Sixteen,
    ThirtyTwo,
}

// A byte that names no kind.
#[derive(Clone, Copy, Debug, PartialEq, Eq)]
pub struct UnknownKind(pub u8);

impl TryFrom<u8> for Kind {
    type Error = UnknownKind;

    ghost try_from_gives = { λ number kind. kind ≡ kind_of number };

    fn try_from(number: u8) -> Result<Kind, UnknownKind> {
        match number {
            1 => Ok(Kind::Eight),
            2 => Ok(Kind::Sixteen),
            3 => Ok(Kind::ThirtyTwo),
            _ => Err(UnknownKind(number)),
        }
    }
}

impl Kind {
    // How many bytes the body has.
    pub fn body(self) -> u32
        ensures { result ≡ body_of self }
    {
        match self {
            Kind::Eight => 8,
            Kind::Sixteen => 16,
            Kind::ThirtyTwo => 32,
        }
    }
}
