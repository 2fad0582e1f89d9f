// Tests: a refusal that is handed as a byte is told as it is, also where no word has that number.
#![tactic(auto)]

#[cfg(test)]
mod tests {
    use node::{Accepted, Step};
    use node_turn::Turn;
    use recording_read::Head;
    use std::test::Fail;
    use tree::Placed;

    #[test]
    fn lookups_and_recordings(rt: HostRuntime) -> Result<(), Fail> {
        let found: Result<u32, u8> = Err(200);
        let placed: Result<Placed, u8> = Err(200);
        let read: Result<(), u8> = Err(200);
        let held: Result<Head, u8> = Err(200);
        let mut word = [7];
        let mut words = [7, 8, 9];
        assert_eq!(rt; lookup_answers::answer_found(found, &mut word), 200);
        assert_eq!(rt; lookup_answers::answer_placed(placed, &mut words), 200);
        assert_eq!(rt; lookup_answers::answer_read(read), 200);
        assert_eq!(rt; recording_answers::answer_held(held, &mut words), 200);
        assert_eq!(rt; word, [7]);
        assert_eq!(rt; words, [7, 8, 9]);
        Ok(())
    }

    #[test]
    fn calls(rt: HostRuntime) -> Result<(), Fail> {
        let called: Result<Accepted, u8> = Err(200);
        let stepped: Result<Step, u8> = Err(200);
        let mut details = [7, 8, 9, 10, 11];
        assert_eq!(rt; answers::number_of(called), 200);
        assert_eq!(rt; answers::answer_barrier(stepped, &mut details), 200);
        assert_eq!(rt; details, [7, 8, 9, 10, 11]);
        Ok(())
    }

    // words that are too few for a state are told first
    #[test]
    fn turns(rt: HostRuntime) -> Result<(), Fail> {
        let turn: Result<Turn, u8> = Err(200);
        let mut state = [7; 8];
        assert!(rt; matches!(node_act::act(&mut state, 0, turn), Err(200)));
        assert_eq!(rt; state, [7; 8]);
        assert!(rt; matches!(node_act::act(&mut state[..7], 0, turn), Err(13)));
        assert_eq!(rt; state, [7; 8]);
        Ok(())
    }
}
