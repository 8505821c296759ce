// Sets of small numbers as the bits of a mask.

#![tactic(auto)]

ghost use Rattle.std.specs.Prelude.{◌≡◌, ◌<◌};
ghost use Rattle.theory.specs.Trees.{at as place_in};
ghost use Rattle.masks.specs.Masks.{has as has_bit, members};

// Whether k is in the mask.
pub fn has(mask: u16, k: u8) -> bool
    requires { k < 16 }
    ensures { result ≡ has_bit mask k }
{
    (mask >> k) & 1 == 1
}

// The k-th number in the mask, counted from 0 in rising order; none where there are no more.
pub fn member(mask: u16, k: u8) -> Option<u8>
    ensures { result ≡ place_in (members (has_bit mask) 0 16) k }
{
    (0..16).filter(|n| has(mask, *n)).nth(usize::from(k))
}
