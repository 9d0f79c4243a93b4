//! A piece of work for each element of a slice.

ghost use Rattle.std.specs.Prelude.{◌≡◌, length};
ghost use Rattle.std.specs.Thread.{IsSync, IsSend};
ghost use Rattle.side_threads.specs.Calls.{Accepts, Changes, AcceptsEach, ChangesEach};

use crate::work_beside;
use std::sync::Wait;
use std::thread::Threads;

/// Calls `f` with each element, each time in a thread of its own, and then `g` in this one. Where no thread can be made, `f` is called here
/// before all that comes after it. It is told whether it has a thread of its own.
#[cycle(each)]
pub fn each_beside<R: Threads + Wait, T: Send, F: Fn(bool, &mut T) + Sync, G: FnMut() -> B, B>(
    rt: &R,
    f: &F,
    g: &mut G,
    xs: &mut [T],
) -> B
    requires accepts { AcceptsEach F.Fn f.now xs.old }
    requires g { G.pre g.old }
    ensures len { length xs.new ≡ length xs.old }
    ensures each { ChangesEach F.Fn f.now xs.old xs.new }
    ensures g { G.step g.old result g.new }
{
    match xs.split_first_mut() {
        None => g(),
        Some((x, rest)) => one_beside(rt, f, x, g, rest),
    }
}

/// The first element beside those after it.
#[cycle(each)]
fn one_beside<R: Threads + Wait, T: Send, F: Fn(bool, &mut T) + Sync, G: FnMut() -> B, B>(
    rt: &R,
    f: &F,
    x: &mut T,
    g: &mut G,
    rest: &mut [T],
) -> B
    requires first { Accepts F.Fn f.now x.old }
    requires accepts { AcceptsEach F.Fn f.now rest.old }
    requires g { G.pre g.old }
    ensures first { Changes F.Fn f.now x.old x.new }
    ensures len { length rest.new ≡ length rest.old }
    ensures each { ChangesEach F.Fn f.now rest.old rest.new }
    ensures g { G.step g.old result g.new }
{
    let mut one = |has_thread: bool|
        requires { Accepts F.Fn f.now x.now }
        ensures { Changes F.Fn f.entry.now x.entry.now x.exit.now }
    { call_with(f, has_thread, x) };
    let mut others = || -> B
        requires { IsSync F.row × IsSend T.row × AcceptsEach F.Fn f.now rest.now × G.pre g.now }
        ensures { (length rest.exit.now ≡ length rest.entry.now) × ChangesEach F.Fn f.entry.now rest.entry.now rest.exit.now
            × G.step g.entry.now result g.exit.now }
    { each_beside(rt, f, g, rest) };
    let (_, b) = work_beside(rt, &mut one, &mut others);
    b
}

/// Calls `f` with this element.
fn call_with<T, F: Fn(bool, &mut T)>(f: &F, has_thread: bool, x: &mut T)
    requires { Accepts F.Fn f.now x.old }
    ensures { Changes F.Fn f.now x.old x.new }
{
    f(has_thread, x);
}
