// Where each word of a node state stands in it: as `words_of` in specs/State, which says what each is.
pub const KIND: usize = 0;

pub const SIZE: usize = 1;

pub const CACHED: usize = 2;

pub const NEED: usize = 3;

pub const REQUIRED_END: usize = 4;

pub const OPTIONAL_END: usize = 5;

pub const FIRST: usize = 6;

pub const NUMBER: usize = 7;

pub const CURSOR: usize = 8;

pub const OFFSET: usize = 9;

pub const FIELD: usize = 10;

pub const CONSTANT: usize = 11;

pub const WEIGHT: usize = 12;

pub const AFTERWARDS: usize = 13;

pub const GROUP_AT: usize = 14;

pub const SCORES: usize = 15;

pub const FREQUENCY_OF: usize = 16;

pub const FREQUENCY: usize = 17;

pub const NORMS: usize = 18;

pub const WINDOW_FIRST: usize = 19;

pub const WINDOW_LOW: usize = 20;

pub const WINDOW_HIGH: usize = 21;

pub const WINDOW_NEXT: usize = 22;

pub const ONES_LOW: usize = 23;

pub const ONES_HIGH: usize = 24;

pub const TWOS_LOW: usize = 25;

pub const TWOS_HIGH: usize = 26;

pub const SPARE1: usize = 27;

pub const SPARE2: usize = 28;

pub const SPARE3: usize = 29;

pub const SPARE4: usize = 30;

pub const SPARE5: usize = 31;
