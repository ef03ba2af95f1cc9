//! Failing allocations. The test passes if there is enough memory. If an allocation is refused, it
//! checks what was written then, and fails with the name of the refusal and nothing else.

use super::grids::table_len;
use super::writers::ended_at;
use std::test::Fail;

#[test]
fn a_table_is_whole_or_nothing_is_written(rt: HostRuntime) -> Result<(), Fail> {
    let (ended, taken, flushes) = ended_at(&rt, rt.alloc(), 10_000, true)?;
    if ended.is_err() {
        assert_eq!(rt; (taken, flushes), (0, 0));
    }
    ended?;
    assert_eq!(rt; (taken, flushes), (table_len(), 1));
    Ok(())
}
