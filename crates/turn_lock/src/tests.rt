use crate::{Count, Counter, CounterOp, CounterReply, Open, TurnLock, add_then_first, count_all};
use std::test::Fail;

// The counts of the roles, where each has counted so often.
fn is_even(counts: &[Count], seats: u32, times: usize) -> bool {
    for role in 0..seats {
        if counts.iter().filter(|count| count.role == role).count() != times {
            return false;
        }
    }
    true
}

#[test]
fn two_and_sixteen_threads_count_to_a_hundred_thousand(rt: HostRuntime) -> Result<(), Fail> {
    let two = count_all(&rt, rt.alloc(), 2, 50_000)?;
    assert!(rt; two.counts().len() == 100_000 && is_even(two.counts(), 2, 50_000));
    let sixteen = count_all(&rt, rt.alloc(), 16, 6_250)?;
    assert!(rt; sixteen.counts().len() == 100_000 && is_even(sixteen.counts(), 16, 6_250));
    Ok(())
}

#[test]
fn one_thread_with_all_passes_never_waits(rt: HostRuntime) -> Result<(), Fail> {
    let (lock, mut passes) = TurnLock::new(rt.alloc(), Counter::new(rt.alloc()), 3)?;
    let mut third = passes.pop().unwrap();
    let mut second = passes.pop().unwrap();
    let mut first = passes.pop().unwrap();
    let reply = lock.call(&rt, rt.alloc(), &mut second, CounterOp::Add { role: 1 });
    assert!(rt; reply == CounterReply::Counted(0));
    let reply = lock.call(&rt, rt.alloc(), &mut third, CounterOp::Add { role: 2 });
    assert!(rt; reply == CounterReply::Counted(1));
    let reply = lock.call(&rt, rt.alloc(), &mut second, CounterOp::Total { role: 1 });
    assert!(rt; reply == CounterReply::Counted(2));
    assert!(rt; add_then_first(&rt, rt.alloc(), &lock, &mut first, 0)? == 1);
    lock.join(&mut third, first);
    let Err(Open { lock, mut keep }) = lock.close(third) else {
        return Err(Fail::new("closed early"));
    };
    lock.join(&mut keep, second);
    let Ok(counter) = lock.close(keep) else {
        return Err(Fail::new("not closed"));
    };
    let counts = [Count { role: 1 }, Count { role: 2 }, Count { role: 0 }];
    assert!(rt; counter.counts() == counts.as_slice());
    Ok(())
}
