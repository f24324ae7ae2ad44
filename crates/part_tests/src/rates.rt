//! Rates at the ends of their rows, and a credit that is saved and spent.

use crate::expect::expect_same;
use fc_rates::{Credits, kib_per_second};

#[test]
fn rates_at_the_ends_of_their_rows(rt: HostRuntime) {
    let table = [
        (0, 0),
        (1, 128),
        (10, 128),
        (11, 256),
        (20, 256),
        (21, 512),
        (50, 2_048),
        (51, 4_096),
        (100, 65_536),
        (101, 131_072),
        (140, 1_048_576),
        (141, 2_097_152),
        (150, 2_097_152),
        (151, 0),
        (255, 0),
    ];
    for (rate, kib) in table {
        expect_same(&rt, &kib_per_second(rate), &kib, "at", u64::from(rate));
    }
}

#[test]
fn credit_is_saved_and_spent(rt: HostRuntime) {
    let mut credits = Credits::new();
    assert!(rt; !credits.spend(64));
    credits.second(128);
    assert!(rt; credits.spend(64));
    assert!(rt; credits.spend(64));
    assert!(rt; !credits.spend(64));
    credits.second(63);
    assert!(rt; !credits.spend(64));
    credits.second(1);
    assert!(rt; credits.spend(64));
    credits.second(64);
    credits.clear();
    assert!(rt; !credits.spend(64));
    assert!(rt; credits.spend(0));
}
