//! Laws of the definitions. Each is the contract of a function that does nothing.

ghost use Rattle.std.specs.Prelude.{◌≡◌, ◌<ℤ◌, ◌≤ℤ◌, ℕ, ℤ, pos, negsuc, List, Some, length};
ghost use Rattle.cert_view.specs.Integers.{number_of, worth};
ghost use Rattle.cert_view.specs.Times.{utc_time};

/// The 32 bytes of an INTEGER are worth what its body is.
pub fn integer_value_is_kept()
    ensures worth { (body bytes : List ℕ) → number_of body ≡ Some bytes → worth bytes ≡ worth body }
    ensures size { (body bytes : List ℕ) → number_of body ≡ Some bytes → length bytes ≡ 32 }
{}

/// A UTCTime says a moment of the years 1950 to 2049 (RFC 5280, 4.1.2.5.1).
pub fn utc_time_is_of_its_years()
    ensures first { (text : List ℕ) (moment : ℤ) → utc_time text ≡ Some moment → negsuc 631_151_999 ≤ℤ moment }
    ensures last { (text : List ℕ) (moment : ℤ) → utc_time text ≡ Some moment → moment <ℤ pos 2_524_608_000 }
{}
