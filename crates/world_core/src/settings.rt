//! Which settings a world takes.
ghost use Rattle.std.specs.Prelude.{◌≡◌, ◌+◌, ◌*◌, Some, None};
ghost use Rattle.world_core.specs.Settings.{bad_count, bad_field, is_subnet, or_bad_link, or_bad_rmb, within};

use pipe_model::{Room, Setup, Side};

/// A field of a setup or of a room.
#[derive(Clone, Copy, Debug, PartialEq, Eq)]
pub enum Field {
    Subnet(Side),
    Links,
    Size,
    Rmbs(Side),
    Elements(Side),
    Depth,
    Number,
    Sockets,
    Entries,
    Bytes,
}

/// A field outside its range, with its value; that of a subnet is `address * 256 + prefix`.
#[derive(Clone, Copy, Debug, PartialEq, Eq)]
pub struct BadField {
    pub field: Field,
    pub value: u64,
}

/// Whether an address and a prefix length are a subnet: no host bit is set.
fn is_subnet(net: (u32, u8)) -> bool
    ensures { result ≡ is_subnet net }
{
    let (address, prefix) = net;
    prefix <= 32 && address as u64 % 2u64.pow(32 - prefix as u32) == 0
}

/// The value of a subnet.
fn subnet_value(net: (u32, u8)) -> u64
    ensures { result ≡ net.0 * 256 + net.1 }
{
    net.0 as u64 * 256 + net.1 as u64
}

/// A field with its value.
fn bad(field: Field, value: u64) -> Option<BadField>
    ensures { result ≡ Some (record { field = field; value = value }) }
{
    Some(BadField { field, value })
}

/// Whether a number is in a range.
fn within(low: u32, high: u32, n: u32) -> bool
    ensures { result ≡ within low high n }
{
    low <= n && n <= high
}

/// The first bad field of the subnets and of the links.
fn bad_link(setup: &Setup) -> Option<BadField>
    ensures { result ≡ or_bad_link setup.now None }
{
    let [a, b] = setup.subnet;
    if !is_subnet(a) {
        return bad(Field::Subnet(Side::A), subnet_value(a));
    }
    if !is_subnet(b) {
        return bad(Field::Subnet(Side::B), subnet_value(b));
    }
    if setup.links != 1 {
        return bad(Field::Links, setup.links as u64);
    }
    if setup.size_code > 5 {
        return bad(Field::Size, setup.size_code as u64);
    }
    None
}

/// The first bad field of the RMBs and their elements.
fn bad_rmb(setup: &Setup) -> Option<BadField>
    ensures { result ≡ or_bad_rmb setup.now None }
{
    let [a, b] = setup.rmbs;
    if a != 1 {
        return bad(Field::Rmbs(Side::A), a as u64);
    }
    if b != 1 {
        return bad(Field::Rmbs(Side::B), b as u64);
    }
    let [a, b] = setup.elements;
    if !within(1, 32, a as u32) {
        return bad(Field::Elements(Side::A), a as u64);
    }
    if !within(1, 32, b as u32) {
        return bad(Field::Elements(Side::B), b as u64);
    }
    None
}

/// The first bad field of the connections, or of the room.
fn bad_count(setup: &Setup, room: Room) -> Option<BadField>
    ensures { result ≡ bad_count setup.now room }
{
    if setup.depth != 1 {
        return bad(Field::Depth, setup.depth as u64);
    }
    if !within(1, 65_535, setup.number as u32) {
        return bad(Field::Number, setup.number as u64);
    }
    if !within(1, 256, setup.sockets) {
        return bad(Field::Sockets, setup.sockets as u64);
    }
    if !within(1, 262_144, room.entries) {
        return bad(Field::Entries, room.entries as u64);
    }
    if !within(1, 67_108_864, room.bytes) {
        return bad(Field::Bytes, room.bytes as u64);
    }
    None
}

/// The first field outside its range, A before B, then the room's.
pub fn bad_field(setup: &Setup, room: Room) -> Option<BadField>
    ensures { result ≡ bad_field setup.now room }
{
    bad_link(setup)
        .or(bad_rmb(setup))
        .or(bad_count(setup, room))
}
