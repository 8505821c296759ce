ghost use Rattle.std.specs.Prelude.{◌≡◌, ℕ, length, Option};
ghost use Rattle.theory.specs.Trees.{Tree, at as place_in};
ghost use Rattle.rules.specs.Meaning.{known_in, score_in, options_in, Names, LawfulIn};

use terms::Side;

// A rule set names positions by codes, and gives each code that it knows a finite tree.
// A question changes nothing, so it always has the same answer.
pub trait RuleSet {
    ghost tree: { Self → ℕ → Option Tree };

    // Whether the code is known.
    fn known(&self, code: u32) -> bool
        ensures { result ≡ known_in (tree self.now code) };

    // The score of an ended code; none for an open or unknown one.
    fn score(&self, code: u32) -> Option<i16>
        ensures { result ≡ score_in (tree self.now code) };

    // How many options a side has; 0 for an ended or unknown code.
    fn count(&self, code: u32, side: Side) -> u8
        ensures { result ≡ length (options_in (tree self.now code) side) };

    // The code of a side's option k, counted from 0; none where there is no such option.
    fn option(&self, code: u32, side: Side, k: u8) -> Option<u32>
        ensures { Names (tree self.now) (place_in (options_in (tree self.now code) side) k) result };

    ghost lawful: { (s : Self) (n : ℕ) → LawfulIn (tree s n) };
}
