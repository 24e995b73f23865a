// What reading answers: what was read, or why reading stopped.
ghost use Rattle.std.specs.Prelude.{◌≡◌};
ghost use Rattle.wire.specs.Code.{checked_of};

// Why reading stopped: the bytes end early, a field is illegal, a region is too deep.
#[derive(Clone, Copy, Debug, PartialEq, Eq)]
pub enum Stop {
    Early,
    Illegal(usize),
    Deep(usize),
}

// A number, and the offset after it.
#[derive(Clone, Copy, Debug, PartialEq, Eq)]
pub struct Number {
    pub value: usize,
    pub next: usize,
}

// A number, or why there is none.
pub type Read = Result<Number, Stop>;

// The offset after what was skipped, or why it could not be.
pub type Skipped = Result<usize, Stop>;

impl Number {
    // A number that is not below the bound is illegal at its field's offset.
    pub fn checked(self, bound: usize, at: usize) -> Read
        ensures { result ≡ checked_of self bound at }
    {
        if self.value < bound {
            Ok(self)
        } else {
            Err(Stop::Illegal(at))
        }
    }
}
