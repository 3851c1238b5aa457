//! What two peers are made with, and how much may happen.
ghost use Rattle.std.specs.Prelude.{◌≡◌};
ghost use Rattle.pipe_model.specs.Settings.{default_setup, default_room};

/// The settings of both peers; a pair is side A's, then side B's.
#[derive(Clone, Copy, Debug, PartialEq, Eq)]
pub struct Setup {
    /// Whether the side is capable of SMC-R.
    pub capable: [bool; 2],
    /// The side's IPv4 subnet and its prefix length, at most 32; the host bits are 0.
    pub subnet: [(u32, u8); 2],
    /// The number of link slots, 1 to 3.
    pub links: u8,
    /// The elements have `2^(size_code + 14)` bytes; 0 to 5.
    pub size_code: u8,
    /// RMBs of the side, 1 to 2.
    pub rmbs: [u8; 2],
    /// Elements of each RMB of the side, 1 to 32.
    pub elements: [u8; 2],
    /// Uncompleted snapshots of an end, at most so many.
    pub depth: u8,
    /// The number of an end's first snapshot, at least 1.
    pub number: u16,
    /// The number of sockets, 1 to 256.
    pub sockets: u32,
}

impl Default for Setup {
    fn default() -> Setup
        ensures { result ≡ default_setup }
    {
        Setup {
            capable: [true, true],
            subnet: [(0x0a00_0000, 24), (0x0a00_0000, 24)],
            links: 2,
            size_code: 0,
            rmbs: [2, 2],
            elements: [4, 4],
            depth: 1,
            number: 1,
            sockets: 1,
        }
    }
}

/// How much a history may hold.
#[derive(Clone, Copy, Debug, PartialEq, Eq)]
pub struct Room {
    /// Entries, 1 to 262,144.
    pub entries: u32,
    /// Bytes that reads may hand out in all, 1 to 67,108,864.
    pub bytes: u32,
}

impl Default for Room {
    fn default() -> Room
        ensures { result ≡ default_room }
    {
        Room {
            entries: 65_536,
            bytes: 1_048_576,
        }
    }
}
