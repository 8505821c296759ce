ghost use Rattle.std.specs.Prelude.{◌≤◌, length};
ghost use Rattle.spreading.specs.Shapes.{row_limit};

use crate::{Samples, Towers};
use measures::{any_cold, too_high};
use rules::RuleSet;
use spreading::{BLANK, ROW_LIMIT, Shape, spread};

// How many rows a known code's tree takes of the free ones, whether it is too high and whether a
// position in it is cold; none where the code is unknown or the rows are too few.
fn judge<R: RuleSet>(rules: &R, code: u32, free: &mut [Shape]) -> Option<(usize, bool, bool)>
    requires { length free.old ≤ row_limit }
{
    if !rules.known(code) {
        return None;
    }
    let n = spread(rules, code, free)?;
    let high = too_high(&free[..n]);
    let cold = any_cold(&free[..n]);
    Some((n, high, cold))
}

#[test]
fn samples_are_judged(rt: HostRuntime) {
    assert_eq!(rt;
        judge(&Samples, 0, &mut [BLANK; 4]),
        Some((4, false, false))
    );
    assert_eq!(rt; judge(&Samples, 0, &mut [BLANK; 3]), None);
    assert_eq!(rt;
        judge(&Samples, 2, &mut [BLANK; 1]),
        Some((1, false, false))
    );
    assert_eq!(rt; judge(&Samples, 3, &mut [BLANK; 8]), Some((3, false, true)));
    assert_eq!(rt; judge(&Samples, 4, &mut [BLANK; 8]), Some((5, false, true)));
    assert_eq!(rt; judge(&Samples, 5, &mut [BLANK; 8]), None);
}

#[test]
fn towers_are_judged(rt: HostRuntime) {
    let mut rows = [BLANK; ROW_LIMIT];
    assert_eq!(rt; judge(&Towers, 12, &mut rows), Some((25, false, false)));
    assert_eq!(rt; judge(&Towers, 13, &mut rows), Some((27, true, false)));
    assert_eq!(rt; judge(&Towers, 511, &mut rows), Some((1023, true, false)));
    assert_eq!(rt; judge(&Towers, 4_000_000_000, &mut rows), None);
}
