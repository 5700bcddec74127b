//! What a walk asks of a machine.

ghost use Rattle.std.specs.Prelude.{◌≡◌, Some, ℕ, Bool, false, IfOk, IsTrue};
ghost use Rattle.decision_core.specs.Decide.{IsTold};
ghost use Rattle.decision_core.specs.States.{Replaces, Forgets, TellsPlaced, HasSteps, Settles, ComeOf};

use std::alloc::AllocError;

/// Sees how far a walk has come, and may end it. Nothing that is said of a walk depends on it.
pub trait Watch {
    /// Whether the walk is to end undecided. It is asked each time before calls are placed in a state.
    fn is_over(&mut self) -> bool;

    /// Takes note of how many states are left after an event, from 0.
    fn see(&mut self, event: usize, states: usize);
}

/// Why a walk ends undecided, or that there is no memory.
#[derive(Drop)]
pub enum Stop<R> {
    /// There would be more states at once than may be.
    TooManyStates,
    /// The watch ended it.
    Ended,
    /// The machine doesn't decide a step, for this reason.
    NotCovered(R),
    /// There is no memory.
    NoMemory,
}

impl<R: Drop> From<AllocError> for Stop<R> {
    ghost use Rattle.std.specs.Prelude.{◌≡◌};
    ghost use Rattle.decision_core.specs.declared.machine.Stop.TheVariants.{NoMemory};

    ghost from_gives = { λ _ stop. stop ≡ NoMemory };

    fn from(_error: AllocError) -> Stop<R> {
        Stop::NoMemory
    }
}

/// A machine, in which the calls of a plan are placed one after the other.
pub trait Machine {
    /// A state of the walk. It stands for points of plans.
    type State: Drop;

    /// Why the machine doesn't decide a step.
    type Reason: Drop;

    // What states have in common that can be told apart by what changed since.
    ghost Origin: { Type 0 };

    // What a state comes of.
    ghost origin: { Self.State → Origin };

    // What comes of a state itself.
    ghost itself: { Self.State → Origin };

    // What a plan fixes and the walk leaves open.
    ghost Plan: { Type 0 };

    // What the calls that a plan has placed so far have led to.
    ghost Point: { Type 0 };

    // Where a plan begins.
    ghost first: { Self → Plan → Point };

    // Whether a call is placed.
    ghost placed: { Self → Point → ℕ → Bool };

    // Under a plan, placing a call leads from the first point to the second.
    ghost Next: { Self → Plan → Point → ℕ → Point → Type 0 };

    // The state stands for a plan's point, where it may have forgotten of these calls whether they are placed.
    ghost StandsFor: { Self → Plan → (ℕ → Bool) → Point → Self.State → Type 0 };

    /// The state that stands for where each plan begins.
    fn opening(&self) -> Result<Self::State, Stop<Self::Reason>>
        ensures { IfOk result (λ state. (plan : Plan) → StandsFor self.now plan (λ _. false) (first self.now plan) state) };

    /// Whether a call is placed that can't be forgotten.
    fn is_placed(&self, state: &Self::State, n: u64) -> bool
        ensures { TellsPlaced (StandsFor self.now) (placed self.now) state.now n result };

    /// States for all that placing one of these calls may lead to, where it isn't placed yet.
    fn step_each(
        &self,
        state: &Self::State,
        calls: &[u64],
    ) -> Result<Vec<Self::State>, Stop<Self::Reason>>
        ensures steps { IfOk result (λ states. HasSteps (StandsFor self.now) (placed self.now) (Next self.now) states.items calls.now state.now) }
        ensures origin { IfOk result (λ states. ComeOf origin (Some (origin state.now)) states.items) };

    /// The state, in which those of these calls are placed that may as well be placed at once: whatever a plan goes on with, it goes on
    /// with after them.
    fn settle(&self, state: Self::State, calls: &[u64]) -> Result<Self::State, Stop<Self::Reason>>
        ensures settles { IfOk result (Settles (StandsFor self.now) (placed self.now) (Next self.now) calls.now state) }
        ensures origin { IfOk result (λ after. origin after ≡ origin state) };

    /// The state, which need not know of this call any more whether it is placed. It isn't asked again.
    fn forget(&self, state: Self::State, n: u64) -> Self::State
        ensures forgets { Forgets (StandsFor self.now) n state result }
        ensures origin { origin result ≡ origin state };

    /// Whether so much changed since what a state comes of that it had better come of something else.
    fn is_worn(&self, state: &Self::State) -> bool;

    /// The state, as one that comes of another one. Both came of the same.
    fn renew(
        &self,
        like: &Self::State,
        state: Self::State,
    ) -> Result<Self::State, Stop<Self::Reason>>
        requires { origin state ≡ origin like.now }
        ensures replaces { IfOk result (λ after. Replaces (StandsFor self.now) state after) }
        ensures origin { IfOk result (λ after. origin after ≡ itself like.now) };

    /// The state, as one that comes of itself.
    fn renew_first(&self, state: Self::State) -> Result<Self::State, Stop<Self::Reason>>
        ensures replaces { IfOk result (Replaces (StandsFor self.now) state) }
        ensures origin { IfOk result (λ after. origin after ≡ itself state) };

    /// Whether the second state stands for all that the first stands for. Both come of the same.
    fn is_same(&self, state: &Self::State, other: &Self::State) -> bool
        requires { origin state.now ≡ origin other.now }
        ensures { IsTrue result → Replaces (StandsFor self.now) state.now other.now };

    /// A number that is the same of states that are the same. Where it isn't, more states are kept than need be.
    fn hash(&self, state: &Self::State) -> u64;

    // A placed call is told as placed, and no other.
    ghost told: { (machine : Self) (plan : Plan) → IsTold (placed machine) (Next machine plan) };

    // Nothing is placed where a plan begins.
    ghost fresh: { (machine : Self) (plan : Plan) (n : ℕ) → placed machine (first machine plan) n ≡ false };
}
