ghost use Rattle.std.specs.Prelude.{◌≡◌, ◌↔◌, IsTrue, pos, FitsSigned, SomeIff};
ghost use Rattle.std.specs.Int.{w64};
ghost use Rattle.gql_base.specs.Number.{int32_of, unsigned_of};

use std::fmt;
use std::marker::Model;

/// A whole number from -2^63 to 2^64-1. Contracts see it as that number.
#[derive(Clone, Copy, Debug)]
pub struct Number {
    negative: bool,
    /// How far it is from 0, or from -1 where it is negative.
    distance: u64,
}

impl Model for Number {
    ghost use Rattle.std.specs.Prelude.{ℤ, pos, negsuc, ◌≤ℤ◌, ◌<ℤ◌, ◌^◌, ◌-◌};
    ghost use Rattle.std.specs.Coded.{coded_ℤ};
    ghost use Rattle.gql_base.specs.Number.{signed, is_negative, distance_of, sign_back};
    ghost use Rattle.gql_base.specs.Number.{distance_back};

    ghost Value = { ℤ };

    ghost coded = { coded_ℤ };

    ghost view = { λ number. signed number.negative number.distance };

    ghost invariant = { λ number. negsuc (2 ^ 63 - 1) ≤ℤ signed number.negative number.distance };

    ghost inverse = { λ value. record {
      negative = is_negative value;
      distance = distance_of value;
    } };

    ghost inverse_ok = { λ number holds i. record {
      negative = sign_back number.negative number.distance i;
      distance = distance_back number.negative number.distance i;
    } };
}

impl Number {
    /// The number of a signed integer.
    pub fn from_i64(value: i64) -> Number
        ensures { result ≡ value }
    {
        if value < 0 {
            Number {
                negative: true,
                distance: (-1 - value).unsigned_abs(),
            }
        } else {
            Number {
                negative: false,
                distance: value.unsigned_abs(),
            }
        }
    }

    /// The number of an unsigned integer.
    pub fn from_u64(value: u64) -> Number
        ensures { result ≡ pos value }
    {
        Number {
            negative: false,
            distance: value,
        }
    }

    /// The number as a signed integer, exactly where it is one.
    pub fn as_i64(&self) -> Option<i64>
        ensures { SomeIff result (FitsSigned w64 self.now) self.now }
    {
        let distance = i64::try_from(self.distance).ok()?;
        Some(if self.negative {
            -1 - distance
        } else {
            distance
        })
    }

    /// The number as one of 32 bits with a sign, exactly where it is one: as one of the type `Int`.
    pub fn as_i32(&self) -> Option<i32>
        ensures { result ≡ int32_of self.now }
    {
        match self.as_i64() {
            Some(whole) if -2147483648 <= whole && whole <= 2147483647 => Some(whole as i32),
            _ => None,
        }
    }

    /// The number as an unsigned integer, exactly where it isn't negative.
    pub fn as_u64(&self) -> Option<u64>
        ensures { result ≡ unsigned_of self.now }
    {
        if self.negative {
            None
        } else {
            Some(self.distance)
        }
    }
}

impl PartialEq for Number {
    ghost use Rattle.std.specs.Ordering.{int_eq};
    ghost use Rattle.std.specs.Cmp.{int_eq_equiv, partial_equiv_from_equiv};

    ghost eq = { int_eq };

    ghost laws = { partial_equiv_from_equiv int_eq_equiv };

    fn eq(&self, other: &Number) -> bool
        ensures value { result ≡ int_eq self.now other.now }
        ensures decides { IsTrue result ↔ (self.now ≡ other.now) }
    {
        self.negative == other.negative && self.distance == other.distance
    }
}

impl Eq for Number {
    ghost use Rattle.std.specs.Cmp.{int_eq_equiv};

    ghost laws = { int_eq_equiv };
}

impl fmt::Display for Number {
    ghost use Rattle.std.specs.Prelude.{Some};
    ghost use Rattle.std.specs.Fmt.{signed_decimal};

    ghost output = { λ number. Some (signed_decimal number) };

    fn fmt<W: fmt::Write>(&self, f: &mut fmt::Formatter<W>) -> fmt::Result {
        let distance = self.distance;
        if self.negative {
            let value = -1 - i64::try_from(distance).unwrap();
            write!(f, "{value}")
        } else {
            write!(f, "{distance}")
        }
    }
}
