//! Work that is done on a thread, or, where none can be started, by who wanted to start it.

ghost use Rattle.std.specs.Prelude.{◌≡◌, IfOk, IfErr};

use office_stations::{Gate, RunFault, Shared};
use std::marker::Model;
use std::snapshot::Snapshot;
use std::sync::Wait;
use std::thread::{Promise, PromisedHandle, Scope, SpawnError, Threads};

/// Work that was started. Contracts see what is promised of its end.
#[derive(Drop)]
pub struct Task<T, P: Promise<T>> {
    /// Its thread; or its end, where none could be started.
    thread: Result<PromisedHandle<T, P>, T>,
    promise: Snapshot<P>,
}

impl<T, P: Promise<T>> Model for Task<T, P> {
    ghost use Rattle.std.specs.Prelude.{◌≡◌, MatchResult};

    ghost Value = { P };

    ghost view = { λ t. t.promise.value };

    ghost invariant = { λ t. MatchResult t.thread (λ h. h.promise ≡ t.promise.value) (λ end. P.kept_by t.promise.value end) };
}

impl<T, P: Promise<T>> Task<T, P> {
    /// Waits for its end.
    pub fn join<R: Threads>(self, rt: &R) -> T
        ensures { P.kept_by self result }
    {
        let Task { thread, promise } = self;
        drop(promise);
        match thread {
            Ok(thread) => thread.join(rt),
            Err(end) => end,
        }
    }
}

/// Starts a thread for the work. Where none can be, the run is over, so the work ends at once, and is done here.
///
/// So its pass isn't lost. No clause tells this from work that a thread did: that a thread couldn't be started may be
/// told of whatever run, as far as the clauses go.
pub(crate) fn start<'x, E, R: Wait, G: Gate, T, P, F>(
    scope: &Scope<'x, E>,
    rt: &R,
    gate: &G,
    shared: &Shared,
    promise: P,
    work: F,
) -> Task<T, P>
where
    T: Send + Drop + 'x,
    P: Promise<T> + Drop,
    F: FnOnce() -> T + Send + 'x,
    requires runs { F.pre work }
    requires keeps { (r : T) → F.post work r → P.kept_by promise r }
    ensures { result ≡ promise }
{
    let seen = Snapshot::of(&promise);
    match start_thread(scope, gate, promise, work) {
        Ok(thread) => Task {
            thread: Ok(thread),
            promise: seen,
        },
        Err(refused) => {
            shared.fail(rt, RunFault::NoThread);
            Task {
                thread: Err((refused.value)()),
                promise: seen,
            }
        }
    }
}

/// A thread for the work, or the work.
fn start_thread<'x, E, G: Gate, T, P, F>(
    scope: &Scope<'x, E>,
    gate: &G,
    promise: P,
    work: F,
) -> Result<PromisedHandle<T, P>, SpawnError<F>>
where
    T: Send + Drop + 'x,
    P: Promise<T> + Drop,
    F: FnOnce() -> T + Send + 'x,
    requires runs { F.pre work }
    requires keeps { (r : T) → F.post work r → P.kept_by promise r }
    ensures thread { IfOk result (λ h. h.promise ≡ promise) }
    ensures refused { IfErr result (λ e. e.value ≡ work) }
{
    if gate.may_start() {
        scope.spawn_with(promise, work)
    } else {
        Err(SpawnError { value: work })
    }
}
