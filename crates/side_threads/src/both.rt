//! Two pieces of work.

ghost use Rattle.std.specs.Prelude.{◌≡◌, Bool};

use std::snapshot::Snapshot;
use std::sync::Wait;
use std::sync::atomic::{AtomicU64, Ordering};
use std::thread;
use std::thread::{Promise, Threads};

/// A piece of work that is done once.
trait Task {
    type Output;

    ghost can_run: { Self → Type 0 };

    ghost run_gives: { Self → Self.Output → Type 0 };

    /// Does it, in a thread of its own or not.
    fn run(self, has_thread: bool) -> Self::Output
        requires { can_run self }
        ensures { run_gives self result };
}

/// That a thread gives what this task does.
#[derive(Drop)]
struct Gives<S>(Snapshot<S>);

impl<S: Task<Output = A>, A> Promise<A> for Gives<S> {
    ghost kept_by = { λ p r. S.run_gives p.0.value r };
}

/// A closure that is told whether it has a thread of its own.
#[derive(Drop)]
struct Told<'a, F> {
    f: &'a mut F,
}

impl<'a, F: FnMut(bool) -> A, A> Task for Told<'a, F> {
    type Output = (&'a mut F, A);

    ghost can_run = { λ t. (has_thread : Bool) → F.pre t.f.now has_thread };

    ghost run_gives = { λ t r. (r.0.ghost_name ≡ t.f.ghost_name) × ((has_thread : Bool) × F.step t.f.now has_thread r.1 r.0.now) };

    fn run(self, has_thread: bool) -> (&'a mut F, A) {
        let Told { f } = self;
        let a = f(has_thread);
        (f, a)
    }
}

/// A closure that isn't.
#[derive(Drop)]
struct Untold<'a, F> {
    f: &'a mut F,
}

impl<'a, F: FnMut() -> A, A> Task for Untold<'a, F> {
    type Output = (&'a mut F, A);

    ghost can_run = { λ t. F.pre t.f.now };

    ghost run_gives = { λ t r. (r.0.ghost_name ≡ t.f.ghost_name) × F.step t.f.now r.1 r.0.now };

    fn run(self, _has_thread: bool) -> (&'a mut F, A) {
        let Untold { f } = self;
        let a = f();
        (f, a)
    }
}

/// Does the first in a new thread and the second in this one. Where no thread can be made, the first is done here before the second.
fn run_both<
    R: Threads + Wait,
    S: Task<Output = A> + Send + Drop,
    T: Task<Output = B> + Drop,
    A: Send + Drop,
    B,
>(rt: &R, first: S, second: T) -> (A, B)
    requires { S.can_run first × T.can_run second }
    ensures { S.run_gives first result.0 × T.run_gives second result.1 }
{
    let refused = AtomicU64::new(0);
    thread::scope(
        thread::scope_env(),
        rt,
        |scope| -> (A, B)
            requires { S.can_run first × T.can_run second }
            ensures { S.run_gives first result.0 × T.run_gives second result.1 }
        {
            let promise = Gives(Snapshot::of(&first));
            let refused = &refused;
            let there = move || -> A
                requires { S.can_run first }
                ensures { S.run_gives first result }
            { first.run(refused.load(Ordering::SeqCst) == 0) };
            match scope.spawn_with(promise, there) {
                Ok(child) => {
                    let b = second.run(false);
                    (child.join(rt), b)
                }
                Err(back) => {
                    refused.store(1, Ordering::SeqCst);
                    let a = (back.value)();
                    (a, second.run(false))
                }
            }
        },
    )
}

/// Does nothing, but this use of a returned reference is what ties it, for the borrow checker, to the parameter that lent it.
fn take_back<T>(x: &mut T)
    ensures { x.new ≡ x.old }
{}

/// Calls `f` in a new thread and `g` in this one. Where no thread can be made, `f` is called here before `g`. It is told whether it has a
/// thread of its own.
pub fn work_beside<
    R: Threads + Wait,
    F: FnMut(bool) -> A + Send,
    G: FnMut() -> B,
    A: Send + Drop,
    B,
>(rt: &R, f: &mut F, g: &mut G) -> (A, B)
    requires f { (has_thread : Bool) → F.pre f.old has_thread }
    requires g { G.pre g.old }
    ensures f { (has_thread : Bool) × F.step f.old has_thread result.0 f.new }
    ensures g { G.step g.old result.1 g.new }
{
    let ((f, a), (g, b)) = run_both(rt, Told { f }, Untold { f: g });
    take_back(f);
    take_back(g);
    (a, b)
}
