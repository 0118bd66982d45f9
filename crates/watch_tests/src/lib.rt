// Examples of tables and piles, as tests.
#![tactic(auto)]

#[cfg(test)]
mod tests {
    use piles::{Delay, Pair};
    use std::alloc::{AllocError, Global};
    use std::test::Fail;
    use table::Table;
    use watch::{MarkSet, Passed, Watcher, follow};

    // The number with which the list is refused, if it is.
    fn number_of(heap: Global, list: &[u16]) -> Result<Option<u8>, AllocError> {
        let list = Vec::from_slice(heap, list)?;
        let answer = Table::blank(heap).read(list);
        Ok(answer.err().map(|refusal| refusal.number()))
    }

    // A table without marks: so many states over one event, from which every letter leads to state 0.
    fn plain(heap: Global, states: u16) -> Result<Vec<u16>, AllocError> {
        let mut list = vec![in heap; states, 1, 1]?;
        list.resize(3 + 4 * usize::from(states), 0)?;
        Ok(list)
    }

    // Mark 1 once the event has started.
    fn started(heap: Global) -> Result<Table, Fail> {
        let mut table = Table::blank(heap);
        table.read(Vec::from_slice(heap, &[2, 1, 1, 0, 1, 0, 1, 0, 1, 1, 1])?)?;
        Ok(table)
    }

    #[test]
    fn lists_are_read_or_refused(rt: HostRuntime) -> Result<(), Fail> {
        let heap = rt.alloc();
        assert_eq!(rt; number_of(heap, &[1, 1, 1, 0, 0, 0, 0])?, None);
        assert_eq!(rt; number_of(heap, &[2, 1, 1, 0, 1, 0, 1, 0, 1, 1, 1])?, None);
        assert_eq!(rt; number_of(heap, &[])?, Some(30), "no sizes");
        assert_eq!(rt; number_of(heap, &[1, 1])?, Some(30), "two words");
        assert_eq!(rt; number_of(heap, &[0, 1, 1])?, Some(30), "no state");
        assert_eq!(rt; number_of(heap, &[1, 0, 1, 0, 0])?, Some(30), "no event");
        assert_eq!(rt;
            number_of(heap, &[1, 1, 9, 0, 0, 0, 0])?,
            Some(30),
            "nine marks"
        );
        assert_eq!(rt;
            number_of(heap, &[1, 1, 1, 0, 0, 0])?,
            Some(30),
            "one word short"
        );
        assert_eq!(rt;
            number_of(heap, &[1, 1, 1, 0, 0, 0, 0, 0])?,
            Some(30),
            "one word long"
        );
        assert_eq!(rt;
            number_of(heap, &[1, 1, 1, 2, 0, 0, 0])?,
            Some(31),
            "mark 2 of 1"
        );
        assert_eq!(rt;
            number_of(heap, &[1, 1, 1, 0, 0, 1, 0])?,
            Some(31),
            "state 1 of 1"
        );
        assert_eq!(rt;
            number_of(heap, &[2, 1, 1, 1, 0, 0, 0, 1, 0, 0, 0])?,
            Some(31),
            "a mark is lost"
        );
        Ok(())
    }

    #[test]
    fn tables_have_at_most_1024_states(rt: HostRuntime) -> Result<(), Fail> {
        let heap = rt.alloc();
        let most = plain(heap, 1024)?;
        let more = plain(heap, 1025)?;
        assert_eq!(rt; number_of(heap, most.as_slice())?, None);
        assert_eq!(rt; number_of(heap, more.as_slice())?, Some(30));
        Ok(())
    }

    #[test]
    fn a_refused_list_changes_nothing(rt: HostRuntime) -> Result<(), Fail> {
        let heap = rt.alloc();
        let mut table = started(heap)?;
        assert!(rt; table.read(plain(heap, 1025)?).is_err());
        assert_eq!(rt; table.sizes().states, 2);
        assert_eq!(rt; table.shown(1).bits, 1);
        Ok(())
    }

    #[test]
    fn a_set_is_written_in_rising_order(rt: HostRuntime) -> Result<(), Fail> {
        let heap = rt.alloc();
        let set = MarkSet { bits: 0b1000_0101 };
        assert_eq!(rt; set.text(heap)?.as_str(), "1 3 8");
        assert_eq!(rt; MarkSet::EMPTY.text(heap)?.as_str(), "none");
        Ok(())
    }

    #[test]
    fn a_delay_lets_the_first_steps_pass(rt: HostRuntime) -> Result<(), Fail> {
        let heap = rt.alloc();
        let below = started(heap)?;
        assert!(rt; Delay::fits(&below, 0).is_err());
        assert!(rt; Delay::fits(&below, 1000).is_ok());
        assert!(rt; Delay::fits(&below, 1001).is_err());
        let delay = Delay::new(below, 2);
        let blank = Passed {
            state: 0,
            shown: MarkSet::EMPTY,
        };
        let mut stands = [blank; 4];
        let appeared = follow(&delay, &[1, 1, 0, 1], &mut stands)?;
        assert_eq!(rt; appeared.bits, 1);
        assert_eq!(rt; stands.map(|stand| stand.state), [3, 0, 0, 1]);
        assert_eq!(rt; stands.map(|stand| stand.shown.bits), [0, 0, 0, 1]);
        Ok(())
    }

    #[test]
    fn a_pair_joins_states_and_marks(rt: HostRuntime) -> Result<(), Fail> {
        let heap = rt.alloc();
        let delay = Delay::new(started(heap)?, 1);
        let first = started(heap)?;
        assert!(rt; Pair::fits(&first, &delay).is_ok());
        let pair = Pair::new(first, delay);
        assert_eq!(rt; pair.sizes().states, 6);
        assert_eq!(rt; pair.start(), 2);
        assert_eq!(rt; pair.next(2, 1), 3);
        assert_eq!(rt; pair.shown(3).bits, 1);
        assert_eq!(rt; pair.next(3, 1), 4);
        assert_eq!(rt; pair.shown(4).bits, 3);
        Ok(())
    }

    #[test]
    fn a_pile_beyond_its_limits_is_the_stub(rt: HostRuntime) -> Result<(), Fail> {
        let heap = rt.alloc();
        let delay = Delay::new(started(heap)?, 0);
        assert_eq!(rt; (delay.sizes().states, delay.sizes().marks), (1, 1));
        assert_eq!(rt;
            (delay.start(), delay.next(0, 1), delay.shown(0).bits),
            (0, 0, 0)
        );
        Ok(())
    }
}
