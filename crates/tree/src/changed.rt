// What a call that changes a plan by value gives.
use crate::Plan;

// The call's answer, and the plan after it.
#[derive(Clone, Copy)]
pub struct Changed<A> {
    pub answer: A,
    pub plan: Plan,
}
