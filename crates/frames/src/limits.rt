// How long lines and answers get.
pub const MOST_DIGITS: usize = 1030;

// The most coefficients that one byte can count.
pub const MOST_COUNTED: usize = 255;

// The longest answer and its line feed.
pub const ANSWER_ROOM: usize = 77;

// The bytes of the longest answer.
pub const MOST_BYTES: usize = 38;
