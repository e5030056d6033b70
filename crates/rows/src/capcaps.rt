// The rights (capcaps) of a row: hold, transfer, register.
ghost use Rattle.std.specs.Prelude.{◌≡◌, ◌==◌};
ghost use Rattle.rows.specs.Codes.{may_hold, may_transfer, may_register, within as is_within};

use crate::Rights;
use crate::codes::ALL_RIGHTS;

// the sums of rights are those below
const SUMS: u32 = ALL_RIGHTS + 1;

impl Rights {
    pub const HOLD: Rights = Rights(1);

    pub const TRANSFER: Rights = Rights(2);

    pub const REGISTER: Rights = Rights(4);

    // No right at all. Ruled out: a right is there, and the answer is true; none is, and it is false.
    pub fn empty(self) -> bool
        ensures { result ≡ (self.0 == 0) }
    {
        self.0 == 0
    }

    // Each right is one of the other's: the three low bits decide.
    // Ruled out: a right that the other lacks; the sides swapped.
    pub fn within(self, other: Rights) -> bool
        ensures { result ≡ is_within self.0 other.0 }
    {
        (self.0 & other.0) % SUMS == self.0 % SUMS
    }

    // The right is there. Ruled out: another right decides; that all three are there is asked.
    pub fn contains(self, right: Rights) -> bool
        ensures all { result ≡ is_within right.0 self.0 }
        ensures hold { right.0 ≡ 1 → result ≡ may_hold self.0 }
        ensures transfer { right.0 ≡ 2 → result ≡ may_transfer self.0 }
        ensures register { right.0 ≡ 4 → result ≡ may_register self.0 }
    {
        right.within(self)
    }
}
