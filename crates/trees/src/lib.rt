// Trees of the user's own, written down in two lent buffers.

#![tactic(auto)]

mod lent;
mod row;

pub use lent::Trees;
pub use row::{BLANK_ROW, EMPTY_RUN, PICK_LIMIT, PickRun, ROW_LIMIT, TreeRow};
use rules::RuleSet;

#[cfg(test)]
mod tests {
    use super::*;
    use rules::RuleSet;
    use terms::Side;

    fn ended(score: i16) -> TreeRow {
        TreeRow { score, ..BLANK_ROW }
    }

    fn open(left: PickRun, right: PickRun) -> TreeRow {
        TreeRow {
            score: 7,
            left,
            right,
        }
    }

    // Any rule set will do.
    fn left_options<R: RuleSet>(rules: &R, code: u32) -> u8 {
        rules.count(code, Side::Left)
    }

    // {4|0}: row 0 has the options 1 and 2.
    #[test]
    fn four_or_nothing(rt: HostRuntime) {
        let left = PickRun { begin: 0, count: 1 };
        let right = PickRun { begin: 1, count: 1 };
        let rows = [open(left, right), ended(4), ended(1001)];
        let trees = Trees::new(&rows, &[1, 2]);
        assert!(rt; trees.known(2) && !trees.known(3));
        assert_eq!(rt; left_options(&trees, 0), 1);
        assert_eq!(rt; trees.option(0, Side::Left, 0), Some(1));
        assert_eq!(rt; trees.option(0, Side::Right, 0), Some(2));
        assert_eq!(rt; trees.option(0, Side::Right, 1), None);
        assert_eq!(rt; trees.score(0), None);
        assert_eq!(rt; trees.score(1), Some(4));
        assert_eq!(rt; trees.score(2), Some(0));
    }

    // A row whose list names the row itself is ended with its score, and so is one whose list leaves the picks.
    #[test]
    fn garbage(rt: HostRuntime) {
        let own = PickRun { begin: 0, count: 1 };
        let past = PickRun {
            begin: 65535,
            count: 16,
        };
        let rows = [open(own, own), open(own, past)];
        let trees = Trees::new(&rows, &[0]);
        assert_eq!(rt; trees.score(0), Some(7));
        assert_eq!(rt; trees.score(1), Some(7));
        assert_eq!(rt; trees.count(1, Side::Left), 0);
    }
}
