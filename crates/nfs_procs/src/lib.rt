//! The files of a gateway by name, and their contexts by number: what each operation makes of this world.
#![tactic(auto)]

mod hulls;
mod served;
mod ticks;
mod world;

pub use served::Served;
pub use world::World;
