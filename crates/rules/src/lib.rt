// The rules of the lock: places and arrivals, the rows of the acts, what a look at an entry finds, and the answer to an act. No state is
// handed over here, only numbers and the location of an entry: both engines stand on this.
#![tactic(auto)]

pub mod actions;
pub mod answers;
pub mod limits;
pub mod stages;
pub mod survey;
