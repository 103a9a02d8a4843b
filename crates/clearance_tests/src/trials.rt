//! Ten thousand random segments and zones.

use crate::checked::{
    has_first_sides, holds, is_below_points, is_least, refuses_others, sides_prove,
};
use crate::random::Random;
use std::test::Fail;
use zone_clearance::Gap;

#[test]
fn random_segments(rt: HostRuntime) -> Result<(), Fail> {
    let mut random = Random::new(1);
    for number in 0..10_000 {
        let case = random.case().ok_or("the numbers are in reach")?;
        let gap = case.gap();
        assert!(rt; is_least(&case, &gap), "segment {number}: {gap:?}");
        assert!(rt;
            has_first_sides(&case, &gap),
            "the sides of segment {number}: {gap:?}"
        );
        assert!(rt;
            is_below_points(&case, &gap),
            "the points of segment {number}: {gap:?}"
        );
        assert!(rt;
            holds(&case, &gap),
            "the check of segment {number}: {gap:?}"
        );
        assert!(rt;
            refuses_others(&case, &gap),
            "other numbers for segment {number}: {gap:?}"
        );
        let second = if random.below(8) == 0 {
            None
        } else {
            Some(random.side())
        };
        let other = Gap {
            first: random.side(),
            second,
            ..gap
        };
        assert!(rt;
            holds(&case, &other) == sides_prove(&case, &other),
            "other sides for segment {number}: {other:?}"
        );
    }
    Ok(())
}
