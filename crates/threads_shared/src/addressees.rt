//! To whom a step sends something.

/// To whom a step has sent something, as far as it is noted while it sends. It takes no memory.
#[derive(Clone, Copy)]
pub enum Addressees {
    /// To nobody.
    Nobody,
    /// To the instance of this number alone.
    One(u32),
    /// To more than one. The step's record tells to whom.
    Several,
}

impl Addressees {
    /// These, and the instance of this number.
    pub fn and(self, number: u32) -> Addressees {
        match self {
            Addressees::Nobody => Addressees::One(number),
            Addressees::One(other) if other == number => self,
            Addressees::One(_) | Addressees::Several => Addressees::Several,
        }
    }
}
