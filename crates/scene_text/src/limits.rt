//! What is counted in a scene, and the most that there may be.

/// The most decimal digits of a number.
pub const MOST_DIGITS: u32 = 9;

/// The longest name.
pub const MOST_NAME_BYTES: u32 = 16;

/// The most sockets that a scene may name.
pub const MOST_NAMES: u32 = 256;

/// The most event lines of a scene. A `pump` is one.
pub const MOST_EVENT_LINES: u32 = 65_536;

/// The most bytes that the `write` lines of a scene may hold in all.
pub const MOST_PAYLOAD_BYTES: u32 = 16_777_216;

/// The most steps of one `pump` line; the least is 1.
pub const MOST_PUMP_STEPS: u32 = 10_000;

/// The most bytes that one `read` line may ask for.
pub const MOST_READ_BYTES: u32 = 1_048_576;

/// The longest prefix of a subnet.
pub const MOST_PREFIX_BITS: u8 = 32;

/// The largest size code: elements have `2^(code + 14)` bytes.
pub const MOST_SIZE_CODE: u8 = 5;

/// The most RMBs of a side.
pub const MOST_RMBS: u8 = 1;

/// The most elements of an RMB.
pub const MOST_ELEMENTS: u8 = 32;

/// The most uncompleted snapshots of an end.
pub const MOST_DEPTH: u8 = 1;

/// The largest number of a first snapshot; the least is 1.
pub const MOST_NUMBER: u16 = 65_535;

/// The most entries that there may be room for.
pub const MOST_ENTRIES: u32 = 262_144;

/// The most bytes that there may be room to hand out.
pub const MOST_BYTES: u32 = 67_108_864;
