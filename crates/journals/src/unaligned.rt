//! Numbers of 32 bits in 4 bytes that may lie at any address, so that a list of fields has no gaps. Contracts see the
//! numbers.

ghost use Rattle.std.specs.Prelude.{◌≡◌};
ghost use Rattle.std.specs.Bool.{nat_eq};
ghost use Rattle.std.specs.Ordering.{int_eq};
ghost use Rattle.std.specs.Cmp.Rules.{comparing};
ghost use Rattle.std.proofs.Common.{rules};

use std::marker::Model;

/// A natural number.
#[derive(Clone, Copy)]
pub struct NaturalBytes {
    bytes: [u8; 4],
}

impl Model for NaturalBytes {
    ghost use Rattle.std.specs.Prelude.{ℕ, ◌≡◌};
    ghost use Rattle.std.specs.Int.{w32, to_le_bytes, from_le_bytes};

    ghost Value = { ℕ };

    ghost view = { λ n. from_le_bytes w32 n.bytes };

    ghost invariant = { λ n. to_le_bytes w32 (from_le_bytes w32 n.bytes) ≡ n.bytes };

    ghost inverse = { λ number. record { bytes = to_le_bytes w32 number } };

    ghost inverse_ok = { λ n same i. record { bytes = same i } };
}

impl NaturalBytes {
    /// The bytes of a number.
    #[inline(always)]
    pub fn of(number: u32) -> NaturalBytes
        ensures { result ≡ number }
    {
        NaturalBytes {
            bytes: number.to_le_bytes(),
        }
    }

    /// The number.
    #[inline(always)]
    pub fn get(self) -> u32
        ensures { result ≡ self }
    {
        u32::from_le_bytes(self.bytes)
    }
}

impl PartialEq for NaturalBytes {
    ghost eq = { nat_eq };

    ghost laws = { Prim.search (comparing, rules) };

    #[inline(always)]
    fn eq(&self, other: &NaturalBytes) -> bool {
        self.get() == other.get()
    }
}

impl Eq for NaturalBytes {
    ghost laws = { Prim.search (comparing, rules) };
}

/// A signed number.
#[derive(Clone, Copy)]
pub struct SignedBytes {
    bytes: [u8; 4],
}

impl Model for SignedBytes {
    ghost use Rattle.std.specs.Prelude.{ℤ, ◌≡◌};
    ghost use Rattle.std.specs.Int.{w32, to_le_bytes, from_le_bytes, cast_signed, cast_unsigned};

    ghost Value = { ℤ };

    ghost view = { λ n. cast_signed w32 (from_le_bytes w32 n.bytes) };

    ghost invariant = { λ n. to_le_bytes w32 (cast_unsigned w32 (cast_signed w32 (from_le_bytes w32 n.bytes))) ≡ n.bytes };

    ghost inverse = { λ number. record { bytes = to_le_bytes w32 (cast_unsigned w32 number) } };

    ghost inverse_ok = { λ n same i. record { bytes = same i } };
}

impl SignedBytes {
    /// The bytes of a number.
    #[inline(always)]
    pub fn of(number: i32) -> SignedBytes
        ensures { result ≡ number }
    {
        SignedBytes {
            bytes: number.to_le_bytes(),
        }
    }

    /// The number.
    #[inline(always)]
    pub fn get(self) -> i32
        ensures { result ≡ self }
    {
        i32::from_le_bytes(self.bytes)
    }
}

impl PartialEq for SignedBytes {
    ghost eq = { int_eq };

    ghost laws = { Prim.search (comparing, rules) };

    #[inline(always)]
    fn eq(&self, other: &SignedBytes) -> bool {
        self.get() == other.get()
    }
}

impl Eq for SignedBytes {
    ghost laws = { Prim.search (comparing, rules) };
}
