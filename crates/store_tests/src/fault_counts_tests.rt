//! A count of faults near its last value.

use fault_counts::raised;

#[test]
fn counts_up_to_the_last(rt: HostRuntime) {
    assert_eq!(rt; raised(0), 1);
    assert_eq!(rt; raised(u64::MAX - 1), u64::MAX);
    assert_eq!(rt; raised(u64::MAX), u64::MAX);
}
