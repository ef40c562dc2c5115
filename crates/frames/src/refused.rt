// The number a line is turned down by before any other. No call has it, so it stands beside `field::Refusal` and not in it.
pub const MALFORMED: u32 = 8;
