// Canon's Private Camera Metadata: docs/RULES.md, "Tables inside values". Its first byte is a count; packs of 5 follow, at most that
// many, a partial one dropped.
#![tactic(auto)]

ghost use Rattle.std.specs.Prelude.{◌≡◌, ◌≤◌, length};
ghost use Rattle.canon_groups.specs.Groups.{raws_of};
ghost use Rattle.canon_packs.specs.Camera.{pack_of, camera_after, unknown, camera_of};

use canon_groups::{
    Balance, Gain, Lens, Modes, Pack, Ranges, Shutter, balance_after, gain_after, lens_after,
    modes_after, ranges_after, shutter_after,
};
use parts::{four_at, two_at};

// What a Private Camera Metadata says, a place for each field.
#[derive(Clone, Copy, Debug, Default, PartialEq)]
pub struct Camera {
    pub lens: Lens,
    pub modes: Modes,
    pub shutter: Shutter,
    pub balance: Balance,
    pub gain: Gain,
    pub ranges: Ranges,
}

// The camera after a pack.
#[tactic(auto, unfolding(crate::specs::Camera::camera_after))]
fn camera_after(p: Pack, c: Camera) -> Camera
    ensures { result ≡ camera_after p.id (raws_of p) c }
{
    Camera {
        lens: lens_after(p, c.lens),
        modes: modes_after(p, c.modes),
        shutter: shutter_after(p, c.shutter),
        balance: balance_after(p, c.balance),
        gain: gain_after(p, c.gain),
        ranges: ranges_after(p, c.ranges),
    }
}

// The camera before the first pack.
fn unknown() -> Camera
    ensures { result ≡ unknown }
{
    Camera::default()
}

// The pack of five bytes.
#[tactic(auto, unfolding(crate::specs::Camera::pack_of))]
fn pack_of(bytes: &[u8]) -> Pack
    requires { 5 ≤ length bytes.now }
    ensures { result ≡ pack_of bytes.now }
{
    Pack {
        id: bytes[0],
        b0: bytes[1],
        b1: bytes[2],
        b2: bytes[3],
        b3: bytes[4],
        first: two_at(bytes, 1),
        middle: two_at(bytes, 2),
        last: two_at(bytes, 3),
        whole: four_at(bytes, 1),
    }
}

// What a Private Camera Metadata says.
pub fn read(s: &[u8]) -> Camera
    ensures { result ≡ camera_of s.now }
{
    let mut c = unknown();
    if s.is_empty() {
        return c;
    }
    let count = usize::from(s[0]);
    for pack in s[1..].chunks_exact(5).take(count) {
        c = camera_after(pack_of(pack), c);
    }
    c
}
