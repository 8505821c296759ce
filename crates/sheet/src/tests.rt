use crate::values::{PartLines, Sheet};
use crate::writing::write;
use stories::Turn;
use terms::{Fault, Refusal, Side};

const TOO_SHORT: Fault = Fault {
    refusal: Refusal::OutputTooShort,
    line: 0,
};

// {4|0} and {{9|2}|0} have the same mean and temperature.
#[test]
fn two_regions(rt: HostRuntime) {
    let part = PartLines {
        mean: 8192,
        heat: Some(8192),
    };
    let sheet = Sheet {
        side: Side::Left,
        turn: Turn::Ours,
        count: 2,
        parts: [part; 8],
        ambient: 8192,
        floor: 16384,
        low: 16384,
        high: 24576,
        advice: Some((0, 0)),
    };
    let mut short = [7; 146];
    assert_eq!(rt; write(&sheet, &mut short), Err(TOO_SHORT));
    assert!(rt; short == [7; 146]);
    let mut exact = [7; 147];
    assert_eq!(rt; write(&sheet, &mut exact), Ok(147));
    let mut out = [7; 148];
    assert_eq!(rt; write(&sheet, &mut out), Ok(147));
    assert!(rt;
        out == *b"sheet=1\nside=left\nturn=ours\nparts=2\npart=0\nmean=8192\nheat=8192\npart=1\nmean=8192\nheat=8192\nambient=8192\nfloor=16384\nlow=16384\nhigh=24576\nadvice=0,0\n\x07"
    );
}

// The game is over, and Right is 3 points ahead.
#[test]
fn ended(rt: HostRuntime) {
    let part = PartLines {
        mean: -12288,
        heat: None,
    };
    let sheet = Sheet {
        side: Side::Right,
        turn: Turn::Over,
        count: 1,
        parts: [part; 8],
        ambient: 0,
        floor: 12288,
        low: -12288,
        high: -12288,
        advice: None,
    };
    let mut out = [0; 124];
    assert_eq!(rt; write(&sheet, &mut out), Ok(124));
    assert!(rt;
        out == *b"sheet=1\nside=right\nturn=over\nparts=1\npart=0\nmean=-12288\nheat=ended\nambient=0\nfloor=12288\nlow=-12288\nhigh=-12288\nadvice=none\n"
    );
}
