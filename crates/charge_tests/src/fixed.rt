// Worked values of fixed levels and their set.

#[cfg(test)]
mod tests {
    use amounts::Whole;
    use charges::levels::LevelCharge;
    use charges::{Charge, Refusal};
    use fixed_levels::fixed::Fixed;
    use fixed_levels::place::Place;
    use level_sets::LevelSet;

    const NOWHERE: Place = Place {
        reading: 0,
        sum: 0,
        squares: 0,
    };

    #[test]
    fn makings_are_tested(rt: HostRuntime) {
        let table = [NOWHERE; 2];
        assert_eq!(rt; Fixed::test(&[], 0, &table), Err(Refusal::Capacity));
        assert_eq!(rt; Fixed::test(&[10, 10], 3, &table), Err(Refusal::LevelSet));
        assert_eq!(rt; Fixed::test(&[0, 10], 3, &table), Err(Refusal::ShortTable));
        assert_eq!(rt; Fixed::test(&[0, 10], 2, &table), Ok(()));
    }

    #[test]
    fn segments_cost_squared_distances(rt: HostRuntime) {
        let mut table = [NOWHERE; 3];
        let mut charge = Fixed::new(&[0, 10], 3, &mut table);
        assert_eq!(rt; charge.take(1), Ok(()));
        assert_eq!(rt; charge.take(9), Ok(()));
        assert_eq!(rt; charge.take(6), Ok(()));
        assert_eq!(rt; charge.fee(1, 3), Ok(Whole { number: 17 }));
        assert_eq!(rt; charge.level(0, 3), Ok(10));
        assert_eq!(rt; charge.price(2, 1), Ok(Whole { number: 16 }));
    }

    #[test]
    fn readings_are_numbers(rt: HostRuntime) {
        let mut table = [NOWHERE; 2];
        let mut charge = Fixed::new(&[-5, 5], 2, &mut table);
        assert_eq!(rt; charge.take(1_000_001), Err(Refusal::Unlawful));
        assert_eq!(rt; charge.take(1_000_000), Ok(()));
        assert_eq!(rt; charge.take(0), Ok(()));
        assert_eq!(rt; charge.level(1, 2), Ok(-5));
        assert_eq!(rt; charge.price(2, 0), Err(Refusal::Outside));
        assert_eq!(rt; charge.price(1, 2), Err(Refusal::Outside));
    }

    #[test]
    fn levels_rise(rt: HostRuntime) {
        assert_eq!(rt; LevelSet::new(&[0, 10]).err(), None);
        assert_eq!(rt; LevelSet::new(&[10, 10]).err(), Some(Refusal::LevelSet));
        assert_eq!(rt; LevelSet::new(&[10, 0]).err(), Some(Refusal::LevelSet));
    }

    #[test]
    fn levels_are_some_few_numbers(rt: HostRuntime) {
        assert_eq!(rt; LevelSet::new(&[]).err(), Some(Refusal::LevelSet));
        assert_eq!(rt; LevelSet::new(&[0; 33]).err(), Some(Refusal::LevelSet));
        assert_eq!(rt; LevelSet::new(&[1_000_001]).err(), Some(Refusal::LevelSet));
    }
}
