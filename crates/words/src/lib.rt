// Whether 21 bytes, the codes of a record, are the same as 21 others.
#![tactic(auto)]

ghost use Rattle.std.specs.Prelude.{◌≡◌, ℕ, ◌<◌, length, get_or};
ghost use Rattle.words.specs.Same.{same_bytes};

// As arrays: a length that is known where it is compiled lets the comparison take many bytes at a time. That lent bytes are below
// 256 is told on, since of an array in a struct that is lent it is not known.
pub fn same(a: &[u8], b: &[u8]) -> bool
    requires { (length a.now ≡ 21) × (length b.now ≡ 21) }
    ensures same { result ≡ same_bytes 21 a.now b.now }
    ensures bytes { ((n : ℕ) → get_or a.now n 0 < 256) × ((n : ℕ) → get_or b.now n 0 < 256) }
{
    a.as_array::<21>() == b.as_array::<21>()
}
