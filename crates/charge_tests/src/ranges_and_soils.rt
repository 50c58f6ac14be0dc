// Worked values of the range and the soils charge.

#[cfg(test)]
mod tests {
    use amounts::Whole;
    use charges::{Charge, Refusal};
    use ranges::extent::Extent;
    use ranges::range::Range;
    use soils::soils::Soils;
    use soils::symbols::Symbols;
    use spans::Joining;
    use spans::table::Spans;

    const POINT: Extent = Extent { low: 0, high: 0 };

    #[test]
    fn range_makings_are_tested(rt: HostRuntime) {
        let table = [POINT; 32];
        assert_eq!(rt; Range::test(&table, 0), Err(Refusal::Capacity));
        assert_eq!(rt; Range::test(&table, 1025), Err(Refusal::Capacity));
        assert_eq!(rt; Range::test(&table[0..31], 8), Err(Refusal::ShortTable));
        assert_eq!(rt; Range::test(&table, 8), Ok(()));
    }

    #[test]
    fn segments_cost_their_range(rt: HostRuntime) {
        let mut table = [POINT; 5];
        let mut charge = Range::new(&mut table, 2);
        assert_eq!(rt; charge.take(-4), Ok(()));
        assert_eq!(rt; charge.take(1), Ok(()));
        assert_eq!(rt; charge.fee(0, 2), Ok(Whole { number: 10 }));
        assert_eq!(rt; charge.level(0, 2), Ok(-1));
        assert_eq!(rt; charge.fee(1, 3), Err(Refusal::Outside));
    }

    #[test]
    fn spans_join_segments(rt: HostRuntime) {
        let mut cells = [POINT; 5];
        let mut spans = Spans::new(&mut cells, 2);
        assert_eq!(rt; spans.push(Extent { low: 3, high: 3 }), Ok(()));
        assert_eq!(rt; spans.push(Extent { low: 1, high: 1 }), Ok(()));
        assert_eq!(rt; spans.push(POINT), Err(Refusal::Full));
        assert_eq!(rt; spans.joined(0, 2), Ok(Extent { low: 1, high: 3 }));
        assert_eq!(rt; spans.joined(1, 1), Err(Refusal::Outside));
    }

    #[test]
    fn range_readings_are_numbers(rt: HostRuntime) {
        let mut table = [POINT; 1];
        let mut charge = Range::new(&mut table, 1);
        assert_eq!(rt; charge.take(1_000_001), Err(Refusal::Unlawful));
        assert_eq!(rt; charge.take(1_000_000), Ok(()));
    }

    const EMPTY: Symbols = Symbols { bits: 0 };

    #[test]
    fn soils_makings_are_tested(rt: HostRuntime) {
        let table = [EMPTY; 32];
        assert_eq!(rt; Soils::test(&table, 0), Err(Refusal::Capacity));
        assert_eq!(rt; Soils::test(&table[0..31], 8), Err(Refusal::ShortTable));
        assert_eq!(rt; Soils::test(&table, 8), Ok(()));
    }

    #[test]
    fn segments_cost_their_symbols(rt: HostRuntime) {
        let mut table = [EMPTY; 6];
        let mut charge = Soils::new(&mut table, 3);
        assert_eq!(rt; charge.take(1), Ok(()));
        assert_eq!(rt; charge.take(4), Ok(()));
        assert_eq!(rt; charge.take(4), Ok(()));
        assert_eq!(rt; charge.fee(0, 3), Ok(Whole { number: 3 }));
        assert_eq!(rt; charge.level(0, 3), Ok(18));
    }

    #[test]
    fn readings_are_symbols(rt: HostRuntime) {
        let mut table = [EMPTY; 1];
        let mut charge = Soils::new(&mut table, 1);
        assert_eq!(rt; charge.take(32), Err(Refusal::Unlawful));
        assert_eq!(rt; charge.take(-1), Err(Refusal::Unlawful));
        assert_eq!(rt; charge.take(31), Ok(()));
        assert_eq!(rt; charge.take(31), Err(Refusal::Full));
    }
}
