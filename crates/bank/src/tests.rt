use crate::Bank;
use std::test::Fail;
use terms::{Refusal, Side};
use toys::{Samples, Towers};

#[test]
fn seatings_are_judged(rt: HostRuntime) {
    let mut bank = Bank::new();
    assert_eq!(rt; bank.seat(&Samples, 0), Ok(0));
    assert_eq!(rt; bank.seat(&Samples, 3), Err(Refusal::ColdPosition));
    assert_eq!(rt; bank.seat(&Samples, 5), Err(Refusal::UnknownCode));
    assert_eq!(rt; bank.seat(&Towers, 13), Err(Refusal::TooHigh));
    assert_eq!(rt; bank.seat(&Towers, 4_000_000_000), Err(Refusal::RowsFull));
    assert_eq!(rt; bank.seat(&Towers, 12), Ok(1));
    assert_eq!(rt; bank.parts(), 2);
    bank.clear();
    assert_eq!(rt; bank.parts(), 0);
}

#[test]
fn diagrams_are_drawn(rt: HostRuntime) {
    let mut bank = Bank::new();
    assert_eq!(rt; bank.seat(&Samples, 0), Ok(0));
    let diagram = bank.diagram(0, 0);
    assert_eq!(rt; diagram.mean(), 4096);
    assert_eq!(rt; diagram.temperature(), 16384);
    assert_eq!(rt; diagram.start(Side::Left), 20480);
    assert_eq!(rt; diagram.start(Side::Right), -12288);
    assert_eq!(rt; diagram.at(Side::Left, 96), 20384);
    assert_eq!(rt; diagram.at(Side::Right, 4_000_000_000), 4096);
    assert_eq!(rt; diagram.corners(Side::Left).len(), 1);
    assert_eq!(rt; bank.diagram(0, 4).mean(), 0);
    assert_eq!(rt; bank.diagram(1, 0).temperature(), 0);
}

#[test]
fn positions_are_read(rt: HostRuntime) -> Result<(), Fail> {
    let mut bank = Bank::new();
    assert_eq!(rt; bank.seat(&Samples, 0), Ok(0));
    let position = bank.find(0, 0).ok_or("the part has a row")?;
    assert_eq!(rt; position.figures().mean, 4096);
    assert_eq!(rt; position.wall(Side::Left, 96), 20384);
    assert_eq!(rt; position.wall(Side::Right, 4_000_000_000), 4096);
    assert!(rt; bank.find(0, 4).is_none());
    assert!(rt; bank.find(1, 0).is_none());
    Ok(())
}
