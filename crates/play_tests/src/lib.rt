// The running controller by hand: what is refused leaves everything as it was, and a log replays.
#![tactic(auto)]

#[cfg(test)]
mod tests {
    use controller::Controller;
    use game::rules::Rules;
    use play::log::Log;
    use play::recording::record;
    use std::test::Fail;
    use table::Table;

    // One state bit, move bit and answer bit; the move equals the state, the answer equals the move, the bit after is the
    // answer; promise and goal are the bit; start 0.
    const RULES: [u8; 22] = [
        1, 1, 1, 3, 5, 32, 16, 3, 5, 32, 48, 1, 48, 1, 1, 16, 1, 1, 16, 1, 0, 0,
    ];

    // State 0 is known, state 1 is not.
    const TABLE: [u8; 12] = [1, 0, 1, 0, 0, 8, 0, 0, 0, 0, 0, 0];

    // The answer to a move, or the number and the place of a refusal.
    fn stepped(controller: &mut Controller<'_>, moved: u8) -> Result<u8, (usize, usize)> {
        controller
            .step(moved)
            .map_err(|refusal| (refusal.number(), refusal.place()))
    }

    #[test]
    fn a_forbidden_move_changes_nothing(rt: HostRuntime) -> Result<(), Fail> {
        let rules = Rules::read(&RULES)?;
        let mut controller = Controller::new(rules, Table::read(&rules, &TABLE)?, 0);
        assert_eq!(rt; stepped(&mut controller, 1), Err((11, 0)));
        assert_eq!(rt; (controller.state, controller.goal), (0, 0));
        assert_eq!(rt; stepped(&mut controller, 0), Ok(0));
        Ok(())
    }

    #[test]
    fn an_unknown_state_is_refused_after_a_forbidden_move(rt: HostRuntime) -> Result<(), Fail> {
        let rules = Rules::read(&RULES)?;
        let mut controller = Controller::new(rules, Table::read(&rules, &TABLE)?, 1);
        assert_eq!(rt; stepped(&mut controller, 1), Err((11, 1)));
        assert_eq!(rt; stepped(&mut controller, 0), Err((11, 0)));
        assert_eq!(rt; (controller.state, controller.goal), (1, 0));
        Ok(())
    }

    #[test]
    fn a_log_is_read_and_replayed(rt: HostRuntime) -> Result<(), Fail> {
        let rules = Rules::read(&RULES)?;
        let controller = Controller::new(rules, Table::read(&rules, &TABLE)?, 0);
        let recording = record(controller, &[0, 0, 1, 0], rt.alloc())?;
        assert!(rt; recording.ran.answers.as_slice() == [0, 0].as_slice());
        assert!(rt; recording.log.as_slice() == [0, 0, 0, 0, 0, 0].as_slice());
        let states = Log::read(recording.log.as_slice())?.replay(&rules, rt.alloc())?;
        assert!(rt; states.as_slice() == [0, 0, 0].as_slice());
        Ok(())
    }
}
