// The tests that the public calls begin with, and the house table. What has a `requires` says there what it asks.
pub mod house;
pub mod refusal;
