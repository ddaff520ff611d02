use super::Bell;
use std::test::Fail;

// A listener that is told between its last look and its sleep doesn't sleep: nobody would wake it.
#[test]
fn who_is_told_does_not_fall_asleep(rt: HostRuntime) -> Result<(), Fail> {
    let bell = Bell::new();
    bell.forget();
    bell.tell();
    bell.sleep(&rt);
    bell.wait(&rt);
    Ok(())
}
