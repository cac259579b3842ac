// The table of links, tried out on memory of the heap.
#![tactic(auto)]

#[cfg(test)]
mod tests {
    use chains::ChainTable;
    use links::{AGE, ALL, ENTRIES, IN, OUT, find, insert, len, remove, remove_all};
    use memory::{MEMORY, Memory};
    use order::{CARDS, LINKS, Link, Refusal};
    use std::process::Abort;
    use std::test::Fail;

    // The slots at the other ends of a slot's links, the newest link first.
    fn walk(
        rt: &impl AllocGlobal,
        memory: &Memory,
        table: ChainTable,
        slot: u64,
    ) -> Result<Vec<u64>, Fail> {
        let mut others = Vec::new(rt.alloc());
        for pointer in table.walk(memory, slot, ENTRIES) {
            others.push(pointer.label)?;
        }
        Ok(others)
    }

    // Sees that a walk meets just the slots that are due.
    fn check_walk(
        rt: &(impl Abort + AllocGlobal),
        memory: &Memory,
        table: ChainTable,
        slot: u64,
        due: &[u64],
    ) -> Result<(), Fail> {
        let others = walk(rt, memory, table, slot)?;
        assert_eq!(rt; others.as_slice(), due, "{table:?} {slot}");
        Ok(())
    }

    #[test]
    fn taken_back_and_put_in_again(rt: HostRuntime) -> Result<(), Fail> {
        let mut v = vec![in rt.alloc(); 0u64; MEMORY]?;
        let Some(memory) = v.as_mut_slice().as_mut_array::<MEMORY>() else {
            return Ok(());
        };
        insert(memory, Link { from: 1, to: 2 });
        assert_eq!(rt; find(memory, Link { from: 1, to: 2 }), Some(1));
        assert_eq!(rt; find(memory, Link { from: 2, to: 1 }), None);
        assert_eq!(rt;
            remove(memory, Link { from: 2, to: 1 }),
            Err(Refusal::Missing)
        );
        assert_eq!(rt; remove(memory, Link { from: 1, to: 2 }), Ok(1));
        assert_eq!(rt; find(memory, Link { from: 1, to: 2 }), None);
        assert_eq!(rt; len(memory), 0);
        insert(memory, Link { from: 3, to: 4 });
        insert(memory, Link { from: 1, to: 2 });
        assert_eq!(rt; find(memory, Link { from: 3, to: 4 }), Some(1));
        assert_eq!(rt; find(memory, Link { from: 1, to: 2 }), Some(2));
        check_walk(&rt, memory, OUT, 1, &[2])?;
        assert_eq!(rt; len(memory), 2);
        Ok(())
    }

    #[test]
    fn old_links_of_a_slot_stay_gone(rt: HostRuntime) -> Result<(), Fail> {
        let mut v = vec![in rt.alloc(); 0u64; MEMORY]?;
        let Some(memory) = v.as_mut_slice().as_mut_array::<MEMORY>() else {
            return Ok(());
        };
        insert(memory, Link { from: 5, to: 6 });
        insert(memory, Link { from: 6, to: 7 });
        insert(memory, Link { from: 6, to: 9 });
        insert(memory, Link { from: 5, to: 7 });
        check_walk(&rt, memory, OUT, 6, &[9, 7])?;
        check_walk(&rt, memory, IN, 7, &[5, 6])?;
        remove_all(memory, 6);
        assert_eq!(rt; len(memory), 1);
        check_walk(&rt, memory, OUT, 5, &[7])?;
        insert(memory, Link { from: 6, to: 8 });
        insert(memory, Link { from: 7, to: 6 });
        check_walk(&rt, memory, OUT, 6, &[8])?;
        check_walk(&rt, memory, IN, 6, &[7])?;
        check_walk(&rt, memory, IN, 7, &[5])?;
        check_walk(
            &rt,
            memory,
            AGE,
            ALL,
            &[7 * CARDS + 6, 6 * CARDS + 8, 5 * CARDS + 7],
        )?;
        assert_eq!(rt; find(memory, Link { from: 6, to: 7 }), None);
        assert_eq!(rt; len(memory), 3);
        Ok(())
    }

    #[test]
    fn no_link_but_between_slots(rt: HostRuntime) -> Result<(), Fail> {
        let mut v = vec![in rt.alloc(); 0u64; MEMORY]?;
        let Some(memory) = v.as_mut_slice().as_mut_array::<MEMORY>() else {
            return Ok(());
        };
        let outside = Link { from: 5, to: CARDS };
        insert(memory, outside);
        assert_eq!(rt; find(memory, outside), None);
        assert_eq!(rt; len(memory), 0);
        Ok(())
    }

    #[test]
    fn full_and_empty_again(rt: HostRuntime) -> Result<(), Fail> {
        let mut v = vec![in rt.alloc(); 0u64; MEMORY]?;
        let Some(memory) = v.as_mut_slice().as_mut_array::<MEMORY>() else {
            return Ok(());
        };
        for i in 0..LINKS {
            insert(
                memory,
                Link {
                    from: i / 8,
                    to: (i / 8 + i % 8 + 1) % CARDS,
                },
            );
        }
        for i in 0..3000u64 {
            let link = Link { from: i, to: i + 1 };
            assert!(rt; remove(memory, link).is_ok());
            assert_eq!(rt; find(memory, link), None);
            insert(memory, link);
            assert!(rt; find(memory, link).is_some());
        }
        assert_eq!(rt; len(memory), LINKS);
        let to = [101, 108, 107, 106, 105, 104, 103, 102];
        let from = [99, 98, 97, 96, 95, 94, 93, 92];
        check_walk(&rt, memory, OUT, 100, &to)?;
        check_walk(&rt, memory, IN, 100, &from)?;
        // An entry is left for as many links more as a batch may have, and none behind them.
        for i in 0..300u64 {
            insert(memory, Link { from: 8000, to: i });
        }
        assert_eq!(rt; len(memory), ENTRIES);
        for i in 0..CARDS {
            remove_all(memory, i);
        }
        assert_eq!(rt; len(memory), 0);
        check_walk(&rt, memory, AGE, ALL, &[])?;
        Ok(())
    }
}
