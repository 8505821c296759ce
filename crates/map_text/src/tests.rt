use crate::read_map;
use lines::Reader;

// The number and the line of what is refused, and 0 for a map that is taken.
fn refused(job: &[u8]) -> (u8, u32) {
    Reader::open(job)
        .and_then(|mut reader| read_map(&mut reader))
        .err()
        .map_or((0, 0), |fault| (fault.refusal.number(), fault.line))
}

#[test]
fn numbers_of_points(rt: HostRuntime) {
    assert_eq!(rt; refused(b"points=12\nedges=none\n"), (0, 0));
    assert_eq!(rt; refused(b"points=13\nedges=none\n"), (51, 1));
    assert_eq!(rt; refused(b"points=-1\nedges=none\n"), (51, 1));
    assert_eq!(rt; refused(b"points=01\nedges=none\n"), (12, 1));
}

#[test]
fn edges_by_form_and_then_by_meaning(rt: HostRuntime) {
    assert_eq!(rt; refused(b"points=3\nedges=0-1,0-2,1-2\nmoves=0\n"), (0, 0));
    assert_eq!(rt; refused(b"points=3\nedges=0-3,0-1\n"), (12, 2));
    assert_eq!(rt;
        refused(b"points=3\nedges=4294967298-4294967297\n"),
        (12, 2)
    );
    assert_eq!(rt; refused(b"points=3\nedges=1-1\n"), (52, 2));
    assert_eq!(rt; refused(b"points=3\nedges=0-4294967297\n"), (52, 2));
}
