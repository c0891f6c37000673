// Why a call is declined, and why no register stands at an address.
// Why no register stands at an address: it is not a multiple of 4, or it lies in no block of
// registers.
#[derive(Clone, Copy, Debug, PartialEq, Eq)]
pub enum AddressError {
    Misaligned,
    Unmapped,
}

// Why a call is declined, by the first check that fails.
#[derive(Clone, Copy, Debug, PartialEq, Eq)]
pub enum Refusal {
    RdramLength = 1,
    DmemLength = 2,
    ImemLength = 3,
    Unsound = 4,
    Unmapped = 5,
    MemoryAddress = 6,
    UnknownKind = 7,
    CutShort = 8,
    TooLong = 9,
    Misaligned = 10,
    BurstLength = 11,
    NoRoom = 14,
}

impl From<AddressError> for Refusal {
    ghost use Rattle.std.specs.Prelude.{◌≡◌};
    ghost use Rattle.machine.specs.Refusals.{refusal_of};

    ghost from_gives = { λ e why. why ≡ refusal_of e };

    fn from(e: AddressError) -> Refusal {
        match e {
            AddressError::Misaligned => Refusal::Misaligned,
            AddressError::Unmapped => Refusal::Unmapped,
        }
    }
}

// The number that host programs get.
impl From<Refusal> for u32 {
    ghost use Rattle.std.specs.Prelude.{◌≡◌};
    ghost use Rattle.machine.specs.Refusals.{number};

    ghost from_gives = { λ why n. n ≡ number why };

    fn from(why: Refusal) -> u32 {
        why as u32
    }
}
