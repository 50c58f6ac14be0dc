// Worked values of the charges; here those of the median, the mode and the lift.
#![tactic(auto)]

mod fixed;
mod ranges_and_soils;

#[cfg(test)]
mod tests {
    use amounts::{Pair, Whole};
    use charges::levels::LevelCharge;
    use charges::{Charge, Refusal};
    use lifts::Lift;
    use medians::median::Median;
    use medians::place::Place;
    use modes::mode::Mode;

    const NOWHERE: Place = Place { reading: 0, at: 0 };

    #[test]
    fn makings_are_tested(rt: HostRuntime) {
        let table = [NOWHERE; 8];
        assert_eq!(rt; Median::test(&table, 0), Err(Refusal::Capacity));
        assert_eq!(rt; Median::test(&table, 1025), Err(Refusal::Capacity));
        assert_eq!(rt; Median::test(&table, 9), Err(Refusal::ShortTable));
        assert_eq!(rt; Median::test(&table, 8), Ok(()));
    }

    #[test]
    fn median_of_a_segment(rt: HostRuntime) {
        let mut table = [NOWHERE; 3];
        let mut charge = Median::new(&mut table, 3);
        assert_eq!(rt; charge.take(1_000_001), Err(Refusal::Unlawful));
        assert_eq!(rt; charge.take(10), Ok(()));
        assert_eq!(rt; charge.take(-3), Ok(()));
        assert_eq!(rt; charge.fee(0, 2), Ok(Whole { number: 13 }));
        assert_eq!(rt; charge.level(0, 2), Ok(-3));
        assert_eq!(rt; charge.fee(2, 2), Err(Refusal::Outside));
    }

    #[test]
    fn mode_of_a_segment(rt: HostRuntime) {
        let mut table = [0i64; 3];
        let mut charge = Mode::new(&mut table, 3);
        assert_eq!(rt; charge.take(32), Err(Refusal::Unlawful));
        assert_eq!(rt; charge.take(-1), Err(Refusal::Unlawful));
        assert_eq!(rt; charge.take(5), Ok(()));
        assert_eq!(rt; charge.take(2), Ok(()));
        assert_eq!(rt; charge.fee(0, 2), Ok(Whole { number: 1 }));
        assert_eq!(rt; charge.level(0, 2), Ok(2));
    }

    #[test]
    fn lifted_fees_and_prices(rt: HostRuntime) {
        let mut table = [0i64; 2];
        let mut lift = Lift {
            inner: Mode::new(&mut table, 2),
        };
        assert_eq!(rt; lift.take(5), Ok(()));
        assert_eq!(rt; lift.take(2), Ok(()));
        let one = Pair { cost: 1, layers: 0 };
        assert_eq!(rt; lift.fee(0, 2), Ok(one));
        assert_eq!(rt; lift.price(0, 2), Ok(one));
    }
}
