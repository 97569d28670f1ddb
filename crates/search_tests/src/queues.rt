//! The queue of open nodes. The expected pairs are in order by bound, then by node.

use branch_tree::Queue;
use std::test::Fail;

#[test]
fn pops(rt: HostRuntime) -> Result<(), Fail> {
    for (name, pushes, pops) in [
        ("no pair", [].as_slice(), [].as_slice()),
        (
            "two of one bound",
            [(5, 2), (3, 7), (3, 1)].as_slice(),
            [(3, 1), (3, 7), (5, 2)].as_slice(),
        ),
        (
            "one pair twice",
            [(4, 9), (-1, 3), (4, 9)].as_slice(),
            [(-1, 3), (4, 9), (4, 9)].as_slice(),
        ),
        (
            "bounds beyond 64 bits",
            [(1 << 100, 0), (-(1 << 100), 4_294_967_295), (0, 5)].as_slice(),
            [(-(1 << 100), 4_294_967_295), (0, 5), (1 << 100, 0)].as_slice(),
        ),
    ] {
        let mut queue = Queue::new(rt.alloc())?;
        for (bound, node) in pushes {
            queue.push(*bound, *node)?;
        }
        for pair in pops {
            assert_eq!(rt; queue.pop(), Some(*pair), "{name}");
        }
        assert_eq!(rt; queue.pop(), None, "{name}");
        queue.push(1, 2)?;
        assert_eq!(rt; queue.pop(), Some((1, 2)), "{name}");
    }
    Ok(())
}
