// The limits of document 01, each named once; specs/Limits.antt says what each is and has the same names for the definitions.
pub const SAMPLE_MOST: usize = 1024;

pub const DESCRIPTION_MOST: usize = 256;

pub const RECORD_HEAD: usize = 4;

pub const RECORD_SIZE: usize = RECORD_HEAD + DESCRIPTION_MOST;

pub const PARTS_MOST: usize = 15;

pub const FINISHED_MOST: usize = 16;

pub const IN_BAND: usize = 128;

pub const WINDOW: usize = 64;

pub const RESERVED: usize = 255;

pub const DESKS_MOST: usize = 8;

pub const OWN_PLACES: usize = 2;

pub const COMMON_EACH: usize = 2;

pub const OPEN_MOST: usize = 6;

pub const PLACES_EACH: usize = OWN_PLACES + COMMON_EACH;

pub const MARKS_EACH: usize = 2;

pub const DESKS_AT: usize = 0;

pub const COMMON_AT: usize = 1;

pub const OPENS_AT: usize = 2;

pub const HEAD_SIZE: usize = OPENS_AT + DESKS_MOST;

pub const MARK_MOST: usize = 4294967295;

pub const STORE_SIZE: usize = WINDOW * RECORD_SIZE;

pub const PLACES_MOST: usize = PLACES_EACH * DESKS_MOST;

pub const ROWS_MOST: usize = FINISHED_MOST * DESKS_MOST;

pub const MARKS_MOST: usize = HEAD_SIZE + MARKS_EACH * DESKS_MOST;

pub const STORES_MOST: usize = STORE_SIZE * DESKS_MOST;

pub const SIZE_LEAST: usize = 14;

pub const SIZE_MOST: usize = 1400;

pub const DURATIONS: usize = 16777216;
