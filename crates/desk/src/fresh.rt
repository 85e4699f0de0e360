// The fresh state from parameters alone.
ghost use Rattle.std.specs.Prelude.{◌≡◌};
ghost use Rattle.rules.specs.Live.{house_fresh};
ghost use Rattle.desk.specs.Answers.{imaged_by};

use crate::refused;
use base::refusal::Refusal;
use buffers::report::pack;
use images::IMAGE_SIZE;
use images::put::put_image;
use live::fresh::fresh_state;

// The image of the fresh state of parameters alone. Any octets as parameters, and any lent state: what is wrong with the parameters comes first.
pub fn house_fresh(parameters: &[u8], state: &mut [u8]) -> u64
    ensures { imaged_by result state.new ≡ house_fresh parameters.now state.old }
{
    let f = fresh_state(parameters);
    if f.code != 0 {
        return pack(f.code, f.place, 0);
    }
    let Some(state) = state.as_mut_array::<IMAGE_SIZE>() else {
        return refused(Refusal::ShortBuffer, 0);
    };
    put_image(state, f.state);
    pack(0, 0, 0)
}
