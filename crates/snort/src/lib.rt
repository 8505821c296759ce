// Snort on a map of up to 12 points.

#![tactic(auto)]

mod colours;
mod map;

pub use map::{POINT_LIMIT, Snort};
use rules::RuleSet;

#[cfg(test)]
mod tests {
    use super::*;
    use rules::RuleSet;
    use std::test::Fail;
    use terms::{Refusal, Side};

    // The number of the refusal, 0 where there is none.
    fn number<T: Drop>(r: Result<T, Refusal>) -> u8 {
        r.err().map_or(0, Refusal::number)
    }

    // A path of three points.
    #[test]
    fn path_of_three(rt: HostRuntime) -> Result<(), Fail> {
        let mut map = Snort::new(3).map_err(|_| Fail::new("refused"))?;
        assert_eq!(rt; number(map.join(0, 1)), 0);
        assert_eq!(rt; number(map.join(1, 2)), 0);
        assert_eq!(rt; number(map.join(2, 2)), 52);
        assert_eq!(rt; number(map.join(0, 3)), 52);
        assert!(rt; map.known(0) && !map.known(8));
        assert_eq!(rt; map.score(0), None);
        assert_eq!(rt; map.count(0, Side::Left), 3);
        assert_eq!(rt; map.option(0, Side::Right, 2), Some(4096 * 4));
        assert_eq!(rt; map.option(0, Side::Right, 3), None);
        // Left has the middle: Right has no point left, and Left holds all three.
        assert_eq!(rt; map.score(2), Some(3));
        assert_eq!(rt; map.count(2, Side::Left), 0);
        // Left at an end and Right in the middle are neighbours.
        assert!(rt; !map.known(1 + 4096 * 2));
        Ok(())
    }

    #[test]
    fn sizes(rt: HostRuntime) {
        assert_eq!(rt; number(Snort::new(1)), 0);
        assert_eq!(rt; number(Snort::new(12)), 0);
        assert_eq!(rt; number(Snort::new(0)), 51);
        assert_eq!(rt; number(Snort::new(13)), 51);
    }
}
