#![tactic(auto)]

ghost use Rattle.std.specs.Prelude.{◌≡◌, Some, Decides};
ghost use Rattle.refusal.specs.Codes.{code_of, place_of, same_refusal, shown_as, Tells};
ghost use Rattle.std.specs.Cmp.{partial_equiv_from_equiv};
ghost use Rattle.std.specs.Cmp.Rules.{comparing};
ghost use Rattle.std.proofs.Common.{rules};

use std::fmt;

// Why a call is refused. The first twelve are caused by the input, the others by the state.
#[derive(Clone, Copy, Debug)]
pub enum Refusal {
    // A block handed over is not 256 bytes, or a disk's bytes or numbers are unfit.
    UnfitBytes,
    // The block is not below the number of blocks.
    NoSuchBlock,
    // A patch has no bytes, more than 32, or bytes past the block's end.
    BadByteRange,
    // A patch names more than 4 patches.
    TooManyNames,
    // A named patch number is 0 or was not given out yet.
    UnknownPatch,
    // The group is not in the table.
    UnknownGroup,
    // A script is not whole words, or longer than 16,384 bytes.
    BadScriptLength,
    // A word breaks the script rules: the place of the first such word.
    MisplacedWord { place: u16 },
    // The report list is shorter than the items.
    ShortReportList,
    // A group would depend on one that is not of lower number.
    GroupNotLower,
    // A text is shorter than 32 bytes.
    ShortText,
    // A set of patches is not closed, or has a bit beyond the held patches.
    SetNotClosed,
    // 64 patches are held.
    PatchTableFull,
    // 16 groups are in the table.
    GroupTableFull,
    // The group is in another state than the call needs.
    WrongGroupState,
    // The group names 4 others, and not this one.
    GroupNamesFull,
    // The block is in flight.
    BlockInFlight,
    // The block is not in flight.
    BlockNotInFlight,
    // No patch of the block may be sent.
    NothingToSend,
    // The disk does not have the block open.
    BlockNotOpen,
    // Patch or group numbers are used up.
    NumbersUsedUp,
    // The buffer was made over a disk with writes in flight.
    UnfitBuffer,
    // More than 16 patches are held, too many to list their sets.
    TooManyHeld,
}

impl Refusal {
    // The number by which users know the refusal.
    // No `From`: this call is public and stays with its two clauses, so that would be a second way to the same number.
    pub fn code(self) -> u8
        ensures value { result ≡ code_of self }
        ensures tells { Tells self result }
    {
        match self {
            Refusal::UnfitBytes => 1,
            Refusal::NoSuchBlock => 2,
            Refusal::BadByteRange => 3,
            Refusal::TooManyNames => 4,
            Refusal::UnknownPatch => 5,
            Refusal::UnknownGroup => 6,
            Refusal::BadScriptLength => 7,
            Refusal::MisplacedWord { place: _ } => 8,
            Refusal::ShortReportList => 9,
            Refusal::GroupNotLower => 10,
            Refusal::ShortText => 11,
            Refusal::SetNotClosed => 12,
            Refusal::PatchTableFull => 20,
            Refusal::GroupTableFull => 21,
            Refusal::WrongGroupState => 22,
            Refusal::GroupNamesFull => 23,
            Refusal::BlockInFlight => 25,
            Refusal::BlockNotInFlight => 26,
            Refusal::NothingToSend => 27,
            Refusal::BlockNotOpen => 28,
            Refusal::NumbersUsedUp => 29,
            Refusal::UnfitBuffer => 30,
            Refusal::TooManyHeld => 31,
        }
    }

    // The place of the misplaced word, and 0 for every other refusal.
    // No Option: each refusal is shown and reported with a place.
    pub fn place(self) -> u16
        ensures { result ≡ place_of self }
    {
        match self {
            Refusal::MisplacedWord { place } => place,
            _ => 0,
        }
    }

    // Whether two refusals are the same, and that `==` says so, in generic code too.
    pub fn is_same(self, other: Refusal) -> bool
        ensures value { result ≡ same_refusal self other }
        ensures same { Decides result (self ≡ other) }
        ensures derived { result ≡ ⟦<Refusal as PartialEq>⟧.eq self other }
    {
        self == other
    }
}

impl fmt::Display for Refusal {
    ghost output = { λ r. Some (shown_as r) };

    fn fmt<W: fmt::Write>(&self, f: &mut fmt::Formatter<W>) -> fmt::Result {
        let code = self.code();
        let place = self.place();
        write!(f, "refused {code} {place}")
    }
}

// By hand: of a derived `==` on so many variants the check does not find that `!=`, `contains` and `position` go by it.
impl PartialEq for Refusal {
    ghost eq = { same_refusal };

    ghost laws = { partial_equiv_from_equiv (Prim.search (comparing, rules)) };

    fn eq(&self, other: &Refusal) -> bool
        ensures value { result ≡ same_refusal self.now other.now }
        ensures same { Decides result (self.now ≡ other.now) }
    {
        self.code() == other.code() && self.place() == other.place()
    }
}

impl Eq for Refusal {
    ghost laws = { Prim.search (comparing, rules) };
}
