// Widths of whole numbers, and numbers narrowed to them as Rust's `as` does.
ghost use Rattle.std.specs.Prelude.{◌≡◌, true, ℤ, pos};
ghost use Rattle.number.specs.Widths.{Wide, signed, unsigned, fits, narrow_float, narrow_whole};
ghost use Rattle.std.proofs.Common.{rules};

use std::num::{saturating_f64_to_i64, saturating_f64_to_u8, saturating_f64_to_u32};

/// A type of whole numbers, all of which fit 64 bits with a sign.
pub trait Width: Sized {
    // The width, as the definitions have it.
    ghost wide: { Wide };

    // The number that a value stands for.
    ghost number: { Self → ℤ };

    /// Whether the width has this number.
    fn holds(n: i64) -> bool
        ensures { result ≡ fits wide n };

    /// The float without its fraction, clamped to the width; 0 for not-a-number.
    fn narrow_float(x: f64) -> Self
        ensures { number result ≡ narrow_float wide x };

    /// The low bits of the number, as many as the width has.
    fn narrow_whole(n: i64) -> Self
        ensures { number result ≡ narrow_whole wide n };

    // Its numbers are among those of 63 bits and a sign.
    ghost within: { (z : ℤ) → fits wide z ≡ true → fits (signed 63) z ≡ true };
}

impl Width for i64 {
    ghost wide = { signed 63 };

    ghost number = { λ z. z };

    ghost within = { Prim.search rules };

    fn holds(_n: i64) -> bool {
        true
    }

    fn narrow_float(x: f64) -> i64 {
        saturating_f64_to_i64(x)
    }

    fn narrow_whole(n: i64) -> i64 {
        n
    }
}

// The impls for u32 and u8 differ in the type alone, and each is written out: a macro may write no
// impl here, the library's casts are functions of one type each, and a `holds` over `TryFrom` in the
// trait would ask a law of each type in its place.
impl Width for u32 {
    ghost wide = { unsigned 32 };

    ghost number = { pos };

    ghost within = { Prim.search rules };

    fn holds(n: i64) -> bool {
        u32::try_from(n).is_ok()
    }

    fn narrow_float(x: f64) -> u32 {
        saturating_f64_to_u32(x)
    }

    fn narrow_whole(n: i64) -> u32 {
        // low bits fit: a `try_from` would add a refusal that never comes
        (n.cast_unsigned() & 0xffff_ffff) as u32
    }
}

impl Width for u8 {
    ghost wide = { unsigned 8 };

    ghost number = { pos };

    ghost within = { Prim.search rules };

    fn holds(n: i64) -> bool {
        u8::try_from(n).is_ok()
    }

    fn narrow_float(x: f64) -> u8 {
        saturating_f64_to_u8(x)
    }

    fn narrow_whole(n: i64) -> u8 {
        (n.cast_unsigned() & 0xff) as u8
    }
}
