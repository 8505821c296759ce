// The worked figures, found by the code.
use crate::figures::{BLANK, Figures, Wall};
use crate::rows::figure_rows;
use spreading::{Fork, Shape};
use std::test::Fail;

// {4|0}
const FOUR_OR_NOTHING: [Shape; 3] = [
    Shape::Open(Fork {
        first: 1,
        lefts: 1,
        rights: 1,
    }),
    Shape::Ended(4),
    Shape::Ended(0),
];

// {0|0}
const NOTHING: [Shape; 3] = [
    Shape::Open(Fork {
        first: 1,
        lefts: 1,
        rights: 1,
    }),
    Shape::Ended(0),
    Shape::Ended(0),
];

// {{5|2}|0}, in breadth-first order
const FIVE_TWO: [Shape; 5] = [
    Shape::Open(Fork {
        first: 1,
        lefts: 1,
        rights: 1,
    }),
    Shape::Open(Fork {
        first: 3,
        lefts: 1,
        rights: 1,
    }),
    Shape::Ended(0),
    Shape::Ended(5),
    Shape::Ended(2),
];

// {{9|2}|0}
const NINE_TWO: [Shape; 5] = [
    Shape::Open(Fork {
        first: 1,
        lefts: 1,
        rights: 1,
    }),
    Shape::Open(Fork {
        first: 3,
        lefts: 1,
        rights: 1,
    }),
    Shape::Ended(0),
    Shape::Ended(9),
    Shape::Ended(2),
];

#[test]
fn four_or_nothing(rt: HostRuntime) -> Result<(), Fail> {
    let mut figures = [BLANK; 3];
    let mut corners = [0; 4];
    assert_eq!(rt;
        figure_rows(&FOUR_OR_NOTHING, &mut figures, &mut corners, 1),
        Some(3)
    );
    assert_eq!(rt; corners, [0, 8192, 8192, 0]);
    assert_eq!(rt;
        figures[0],
        Figures {
            mean: 8192,
            temperature: 8192,
            left: Wall {
                start: 16384,
                begin: 1,
                count: 1,
            },
            right: Wall {
                start: 0,
                begin: 2,
                count: 1,
            },
        }
    );
    Ok(())
}

#[test]
fn five_two(rt: HostRuntime) -> Result<(), Fail> {
    let mut figures = [BLANK; 5];
    let mut corners = [0; 6];
    assert_eq!(rt;
        figure_rows(&FIVE_TWO, &mut figures, &mut corners, 0),
        Some(5)
    );
    assert_eq!(rt; corners, [6144, 6144, 6144, 7168, 7168, 0]);
    assert_eq!(rt; figures[0].mean, 7168);
    assert_eq!(rt; figures[0].temperature, 7168);
    assert_eq!(rt; figures[1].mean, 14336);
    Ok(())
}

// Left's wall keeps no corner: up to the temperature it is the straight mast of {9|2}'s right wall.
#[test]
fn nine_two(rt: HostRuntime) -> Result<(), Fail> {
    let mut figures = [BLANK; 5];
    let mut corners = [0; 4];
    assert_eq!(rt;
        figure_rows(&NINE_TWO, &mut figures, &mut corners, 0),
        Some(3)
    );
    assert_eq!(rt; corners, [14336, 14336, 8192, 0]);
    assert_eq!(rt; figures[0].left.count, 0);
    assert_eq!(rt; figures[0].mean, 8192);
    assert_eq!(rt; figures[0].temperature, 8192);
    Ok(())
}

#[test]
fn nothing(rt: HostRuntime) -> Result<(), Fail> {
    let mut figures = [BLANK; 3];
    let mut corners = [0; 0];
    assert_eq!(rt;
        figure_rows(&NOTHING, &mut figures, &mut corners, 0),
        Some(0)
    );
    assert_eq!(rt; figures[0], BLANK);
    Ok(())
}

#[test]
fn no_room(rt: HostRuntime) -> Result<(), Fail> {
    let mut figures = [BLANK; 3];
    let mut corners = [0; 1];
    assert_eq!(rt;
        figure_rows(&FOUR_OR_NOTHING, &mut figures, &mut corners, 0),
        None
    );
    Ok(())
}
