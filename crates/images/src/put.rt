// An image, put into a lent buffer part by part, each at its place.
ghost use Rattle.std.specs.Prelude.{◌≡◌, length};
ghost use Rattle.octets.specs.Splice.{splice};
ghost use Rattle.rules.specs.declared.form.Scale.TheVariants.{Tenths};
ghost use Rattle.rules.specs.Written.{times_octets, mode_octets, flags_octet, scenes_octets};
ghost use Rattle.rules.specs.Images.{flag_octets, moment_octets, image};

use crate::IMAGE_SIZE;
use octets::write32;
use phases::phase::due_at;
use records::status::bit_of;
use rules::parameters::{Params, Scene};
use rules::state::State;
use states::same::{force_number, link_number, phase_number};

const SCENES_AT: usize = 24;

// The four times, in tenths.
#[tactic(auto, unfolding(octets::specs::Splice::splice, octets::specs::BigEndian::octets32))]
fn put_times(buf: &mut [u8; IMAGE_SIZE], p: Params)
    ensures { buf.new ≡ splice buf.old 0 (times_octets Tenths p) }
{
    write32(buf, 0, p.ondelay);
    write32(buf, 4, p.offdelay);
    write32(buf, 8, p.timedon);
    write32(buf, 12, p.prewarning);
}

// The five modes, scene learning, and two zeros.
#[tactic(auto, unfolding(octets::specs::Splice::splice))]
fn put_modes(buf: &mut [u8; IMAGE_SIZE], p: Params)
    ensures { buf.new ≡ splice buf.old 16 (mode_octets p) }
{
    buf[16..24].copy_from_slice(&[
        p.locking,
        p.unlocking,
        p.busfailure,
        p.busreturn,
        p.powerreturn,
        bit_of(p.learning, 1),
        0,
        0,
    ]);
}

// The flags of a scene entry: bit 0 is the value, and bit 1 says that it was taught in.
fn flags_of(e: Scene) -> u8
    ensures { result ≡ flags_octet e }
{
    bit_of(e.value, 1) + bit_of(e.taught, 2)
}

// The scene table, which has eight entries by its type: of each its number, then its flags.
fn put_scenes(buf: &mut [u8; IMAGE_SIZE], k: [Scene; 8])
    ensures { (buf.new ≡ splice buf.old 24 (scenes_octets k)) × (length k ≡ 8) }
{
    for (n, e) in k.iter().enumerate() {
        let at = SCENES_AT + 2 * n;
        buf[at..at + 2].copy_from_slice(&[e.number, flags_of(*e)]);
    }
}

// Version, flags, the outputs remembered, and the phase.
#[tactic(auto, unfolding(octets::specs::Splice::splice, rules::specs::Images::flag_octets))]
fn put_flags(buf: &mut [u8; IMAGE_SIZE], s: State)
    ensures { buf.new ≡ splice buf.old 40 (flag_octets s) }
{
    buf[40..48].copy_from_slice(&[
        s.params.version,
        bit_of(s.night, 1),
        bit_of(s.lock, 1),
        force_number(s.force),
        link_number(s.link),
        bit_of(s.atlocking, 1),
        bit_of(s.atfailure, 1),
        phase_number(s.phase),
    ]);
}

// The clock, and the deadline, 0 where there is none.
#[tactic(auto, unfolding(octets::specs::Splice::splice, octets::specs::BigEndian::octets32, rules::specs::Images::moment_octets))]
fn put_moments(buf: &mut [u8; IMAGE_SIZE], s: State)
    ensures { buf.new ≡ splice buf.old 48 (moment_octets s) }
{
    write32(buf, 48, s.clock);
    write32(buf, 52, due_at(s.phase));
}

// The image of a state, over whatever stood in the buffer.
pub fn put_image(buf: &mut [u8; IMAGE_SIZE], s: State)
    ensures { buf.new ≡ image s }
{
    put_times(buf, s.params);
    put_modes(buf, s.params);
    put_scenes(buf, s.scenes);
    put_flags(buf, s);
    put_moments(buf, s);
}
