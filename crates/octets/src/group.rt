// The eight octets of one input: its stamp, its kind and value, and the two that end it. (What the kind and the value mean: whoever takes it.)
ghost use Rattle.std.specs.Prelude.{◌≡◌, ◌+◌, ◌*◌, ◌≤◌, length};
ghost use Rattle.octets.specs.Groups.{group_size, stamp_at, kind_at, value_at, ends_in_zeros, track_at, ends_within};

use crate::read32;

const GROUP_SIZE: usize = 8;

// Eight octets of a string, from a place on, which all lie in it.
#[derive(Clone, Copy)]
pub struct Group<'a> {
    pub octets: &'a [u8],
    pub at: usize,
    ghost inside: { at + group_size ≤ length octets.now },
}

impl<'a> Group<'a> {
    pub fn new(octets: &'a [u8], at: usize) -> Group<'a>
        requires { at + group_size ≤ length octets.now }
        ensures { (result.octets.now ≡ octets.now) × (result.at ≡ at) }
    {
        Group { octets, at }
    }

    // The group of this index, where one follows the other.
    pub fn nth(octets: &'a [u8], i: u32) -> Group<'a>
        requires { group_size * (i + 1) ≤ length octets.now }
        ensures { (result.octets.now ≡ octets.now) × (result.at ≡ group_size * i) }
    {
        Group::new(octets, GROUP_SIZE * i as usize)
    }

    #[tactic(auto, unfolding(crate::specs::Groups::stamp_at))]
    pub fn stamp(self) -> u32
        ensures { result ≡ stamp_at self.entry.octets.now self.entry.at }
    {
        read32(self.octets, self.at)
    }

    pub fn kind(self) -> u8
        ensures { result ≡ kind_at self.entry.octets.now self.entry.at }
    {
        self.octets[self.at + 4]
    }

    pub fn value(self) -> u8
        ensures { result ≡ value_at self.entry.octets.now self.entry.at }
    {
        self.octets[self.at + 5]
    }

    // Where the first of the last two octets is a track: which.
    pub fn track(self) -> u8
        ensures { result ≡ track_at self.entry.octets.now self.entry.at }
    {
        self.octets[self.at + 6]
    }

    // Whether the last two octets are zero.
    pub fn ends_in_zeros(self) -> bool
        ensures { result ≡ ends_in_zeros self.entry.octets.now self.entry.at }
    {
        self.track() == 0 && self.octets[self.at + 7] == 0
    }

    // Whether the track is at most the last one that is taken, and the octet after it zero.
    pub fn ends_within(self, last: u8) -> bool
        ensures { result ≡ ends_within last self.entry.octets.now self.entry.at }
    {
        self.track() <= last && self.octets[self.at + 7] == 0
    }
}
