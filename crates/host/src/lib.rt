// Channels of values between the engine and the world.
#![tactic(auto)]

pub mod calls;
pub mod queues;
