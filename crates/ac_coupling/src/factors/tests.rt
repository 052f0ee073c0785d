use super::*;

mod table;

use table::TABLE;

#[test]
fn coordinate_pairs(rt: HostRuntime) {
    for &(own, shared, exp, mant) in &TABLE {
        let found = coordinate(u128::from(own), u128::from(shared));
        assert_eq!(rt; found, Coordinate { exp, mant }, "{own} of {shared}");
    }
}

/// The factor 1 is (2, 0), a half (3, 0); where the channel is silent there is the least, and the greatest where the coupling channel is.
#[test]
fn coordinate_of_nothing(rt: HostRuntime) {
    for (own, shared, exp, mant) in [(7, 7, 2, 0), (7, 28, 3, 0), (0, 1, 15, 0), (0, 0, 0, 15)] {
        assert_eq!(rt;
            coordinate(own, shared),
            Coordinate { exp, mant },
            "{own} of {shared}"
        );
    }
}
