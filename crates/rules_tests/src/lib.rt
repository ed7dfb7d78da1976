// Rules files by hand: one that is read, and for each refusal files that show its number and place.
#![tactic(auto)]

#[cfg(test)]
mod tests {
    use checks_test::changed;
    use game::rules::Rules;
    use std::test::Fail;

    // One state bit, move bit and answer bit; any move, the answer equals the move, the bit after is the answer; the
    // promise is true, the goal is the bit; start 0.
    const GOOD: [u8; 20] = [
        1, 1, 1, 1, 1, 3, 5, 32, 48, 1, 48, 1, 1, 16, 1, 1, 16, 1, 0, 0,
    ];

    // The number and the place that a file is refused with; nothing where it is read.
    fn fault(file: &[u8]) -> Option<(usize, usize)> {
        let refusal = Rules::read(file).err()?;
        Some((refusal.number(), refusal.place()))
    }

    #[test]
    fn reads_the_good_file(rt: HostRuntime) {
        assert_eq!(rt; fault(&GOOD), None);
    }

    #[test]
    fn writes_what_it_read(rt: HostRuntime) -> Result<(), Fail> {
        let rules = Rules::read(&GOOD)?;
        let mut out = Vec::new(rt.alloc());
        rules.write(&mut out)?;
        assert!(rt; out.as_slice() == GOOD.as_slice());
        Ok(())
    }

    #[test]
    fn refuses_each_changed_byte_at_its_place(rt: HostRuntime) {
        let cases = [
            (0, 13, (2, 0)),
            (1, 7, (2, 1)),
            (2, 7, (2, 2)),
            (4, 6, (3, 4)),
            (4, 48, (3, 4)),
            (7, 33, (3, 7)),
            (7, 64, (3, 7)),
            (13, 32, (3, 13)),
            (16, 17, (3, 16)),
            (3, 2, (4, 3)),
            (5, 2, (4, 5)),
            (5, 4, (4, 5)),
            (9, 0, (4, 9)),
            (11, 9, (5, 11)),
            (14, 0, (5, 14)),
            (14, 9, (5, 14)),
            (17, 0, (5, 17)),
            (17, 17, (5, 17)),
            (18, 2, (6, 18)),
            (19, 1, (6, 18)),
        ];
        for (at, byte, expected) in cases {
            assert_eq!(rt; fault(&changed(GOOD, at, byte)), Some(expected));
        }
    }

    #[test]
    fn refuses_each_cut_at_the_length(rt: HostRuntime) {
        for n in 0..GOOD.len() {
            assert_eq!(rt; fault(&GOOD[0..n]), Some((1, n)));
        }
    }

    #[test]
    fn refuses_the_first_byte_too_many(rt: HostRuntime) {
        assert_eq!(rt;
            fault(&[
                1, 1, 1, 1, 1, 3, 5, 32, 48, 1, 48, 1, 1, 16, 1, 1, 16, 1, 0, 0, 7, 7,
            ]),
            Some((1, 20))
        );
    }

    // The corners: what counts where a formula has more than one fault.
    #[test]
    fn refuses_the_first_fault_of_a_formula(rt: HostRuntime) {
        // cut off by the file with an operand lacking; with a formula that ended before; with a bad byte before the cut
        assert_eq!(rt; fault(&[1, 1, 1, 1, 1, 9, 3, 32]), Some((1, 8)));
        assert_eq!(rt; fault(&[1, 1, 1, 1, 1, 9, 32]), Some((4, 5)));
        assert_eq!(rt; fault(&[1, 1, 1, 1, 1, 9, 3, 99]), Some((3, 7)));
        // a bad byte after the formula's own end is no byte of the formula; one before it counts first
        assert_eq!(rt; fault(&[1, 1, 1, 1, 1, 4, 32, 99, 1, 1]), Some((4, 5)));
        assert_eq!(rt; fault(&[1, 1, 1, 1, 1, 2, 3, 99]), Some((3, 7)));
    }
}
