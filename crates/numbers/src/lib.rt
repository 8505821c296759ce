// Numbers as texts: which bytes are a number, and which one.

#![tactic(auto)]

ghost use Rattle.std.specs.Prelude.{◌≡◌};
ghost use Rattle.numbers.specs.Laws.{NaturalExact, IntegerExact, Ordered};
ghost use Rattle.numbers.specs.Numbers.{less_text};

mod text;

pub use text::Text;

// Of two texts of numbers, of any number of digits, whether the first says less.
pub fn is_less(a: &[u8], b: &[u8]) -> bool
    ensures { result ≡ less_text a.now b.now }
{
    (a.len(), a).cmp(&(b.len(), b)).is_lt()
}

// A number has exactly one text, and texts of numbers stand in the order of their numbers.
pub fn numbers_are_their_texts()
    ensures natural { NaturalExact }
    ensures integer { IntegerExact }
    ensures ordered { Ordered }
{}
