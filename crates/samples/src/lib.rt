// Jobs, and what is told of them or which fault they meet.

#![tactic(auto)]

#[cfg(test)]
mod tests {
    use job::check_text;
    use trees::BLANK_ROW;

    // The fault's number, or 0 for a sound text, and the line of the fault, or the number of lines.
    // Four rows and three picks are lent.
    fn told(job: &[u8]) -> (u8, u32) {
        let mut rows = [BLANK_ROW; 4];
        let mut picks = [0; 3];
        match check_text(job, &mut rows, &mut picks) {
            Ok(account) => (0, account.lines),
            Err(fault) => (fault.refusal.number(), fault.line),
        }
    }

    // The first case that is told otherwise than it says.
    fn told_otherwise(cases: &[(&[u8], u8, u32)]) -> Option<usize> {
        cases
            .iter()
            .position(|(job, number, line)| told(job) != (*number, *line))
    }

    #[test]
    fn lines_and_heads(rt: HostRuntime) {
        let cases: &[(&[u8], u8, u32)] = &[
            (b"side=left\nfirst=ours\nparts=0\nmoves=0\n", 0, 4),
            (b"", 11, 1),
            (b"\n", 11, 1),
            (b"side=left", 11, 1),
            (b"side=up\n", 12, 1),
            (b"Side=left\n", 11, 1),
            (b"side=left\n", 11, 2),
            (b"side=left\r\n", 12, 1),
            (b"side=right\nfirst=theirs\nparts=0\nmoves=0\nx", 14, 4),
            (b"side=left\nfirst=ours\nparts=9\n", 12, 3),
            (b"side=left\nfirst=ours\nmoves=0\n", 11, 3),
            (b"side=left\nfirst=ours\nparts=0\nmoves=97\n", 12, 4),
            (b"side=left\nfirst=ours\nparts=0\nmoves=1\n", 11, 5),
            (
                b"side=left\nfirst=ours\nparts=0\nmoves=1\nmove=7,15\n",
                0,
                5,
            ),
            (
                b"side=left\nfirst=ours\nparts=0\nmoves=1\nmove=8,0\n",
                12,
                5,
            ),
            (
                b"side=left\nfirst=ours\nparts=0\nmoves=1\nmove=0,16\n",
                12,
                5,
            ),
            (
                b"side=left\nfirst=ours\nparts=0\nmoves=1\nmove=0,0,0\n",
                12,
                5,
            ),
        ];
        assert_eq!(rt; told_otherwise(cases), None);
    }

    #[test]
    fn trees(rt: HostRuntime) {
        let cases: &[(&[u8], u8, u32)] = &[
            (
                b"side=left\nfirst=ours\nparts=1\nrules=tree\nrows=1\nend=-1000\nmoves=0\n",
                0,
                7,
            ),
            (b"side=left\nfirst=ours\nparts=1\nrules=chess\n", 12, 4),
            (
                b"side=left\nfirst=ours\nparts=1\nrules=tree\nrows=0\n",
                12,
                5,
            ),
            (
                b"side=left\nfirst=ours\nparts=1\nrules=tree\nrows=257\n",
                12,
                5,
            ),
            (
                b"side=left\nfirst=ours\nparts=1\nrules=tree\nrows=5\n",
                15,
                5,
            ),
            (
                b"side=left\nfirst=ours\nparts=1\nrules=tree\nrows=1\nend=1001\n",
                12,
                6,
            ),
            (
                b"side=left\nfirst=ours\nparts=1\nrules=tree\nrows=1\nend=-0\n",
                12,
                6,
            ),
            (
                b"side=left\nfirst=ours\nparts=1\nrules=tree\nrows=2\nleft=2\n",
                12,
                6,
            ),
            (
                b"side=left\nfirst=ours\nparts=1\nrules=tree\nrows=2\nleft=0\n",
                13,
                6,
            ),
            (
                b"side=left\nfirst=ours\nparts=1\nrules=tree\nrows=2\nleft=1\nleft=1\n",
                11,
                7,
            ),
            (
                b"side=left\nfirst=ours\nparts=1\nrules=tree\nrows=2\nleft=1,1\nright=1\nend=0\nmoves=0\n",
                0,
                9,
            ),
            (
                b"side=left\nfirst=ours\nparts=1\nrules=tree\nrows=2\nleft=1,1\nright=1,1\nend=0\nmoves=0\n",
                15,
                7,
            ),
            (
                b"side=left\nfirst=ours\nparts=1\nrules=tree\nrows=2\nleft=1,\n",
                12,
                6,
            ),
        ];
        assert_eq!(rt; told_otherwise(cases), None);
    }

    #[test]
    fn maps(rt: HostRuntime) {
        let cases: &[(&[u8], u8, u32)] = &[
            (
                b"side=left\nfirst=ours\nparts=1\nrules=snort\npoints=3\nedges=0-1,1-2\nmoves=0\n",
                0,
                7,
            ),
            (
                b"side=left\nfirst=ours\nparts=1\nrules=snort\npoints=12\nedges=none\nmoves=0\n",
                0,
                7,
            ),
            (
                b"side=left\nfirst=ours\nparts=1\nrules=snort\npoints=13\n",
                51,
                5,
            ),
            (
                b"side=left\nfirst=ours\nparts=1\nrules=snort\npoints=-1\n",
                51,
                5,
            ),
            (
                b"side=left\nfirst=ours\nparts=1\nrules=snort\npoints=01\n",
                12,
                5,
            ),
            (
                b"side=left\nfirst=ours\nparts=1\nrules=snort\npoints=3\nedges=0-3\n",
                52,
                6,
            ),
            (
                b"side=left\nfirst=ours\nparts=1\nrules=snort\npoints=3\nedges=1-1\n",
                52,
                6,
            ),
            (
                b"side=left\nfirst=ours\nparts=1\nrules=snort\npoints=3\nedges=2-1\n",
                12,
                6,
            ),
            (
                b"side=left\nfirst=ours\nparts=1\nrules=snort\npoints=3\nedges=0-1,0-1\n",
                12,
                6,
            ),
            (
                b"side=left\nfirst=ours\nparts=1\nrules=snort\npoints=3\nedges=0-99999999999999999999,0-1\n",
                12,
                6,
            ),
            (
                b"side=left\nfirst=ours\nparts=1\nrules=snort\npoints=3\nedges=0-99999999999999999999\n",
                52,
                6,
            ),
        ];
        assert_eq!(rt; told_otherwise(cases), None);
    }
}
