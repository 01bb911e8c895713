ghost use Rattle.std.specs.Prelude.{◌≡◌, ℕ};
ghost use Rattle.model.specs.Forwarding.{roots_forwarded};
ghost use Rattle.state.specs.View.{state_view, roots_view};

use super::forwarding::forward_held;
use layouts::Layout;
use memory::Host;
use state::{Mutator, Space};

/// Forwards the references in the registers, mutator by mutator, register by register.
pub fn forward_roots<H: Host, L: Layout>(
    host: &mut H,
    layout: &L,
    space: &mut Space,
    mutators: &mut [Mutator; 4],
)
    ensures after { roots_view (H.Host.meaning host.new) space.new mutators.new ≡ roots_forwarded L.Layout.rules (roots_view (H.Host.meaning host.old) space.old mutators.old) 32 }
    ensures states { state_view mutators.new ≡ state_view mutators.old }
{
    for mutator in mutators[..].iter_mut() {
        for register in mutator.registers[..].iter_mut() {
            *register = forward_held(host, layout, space, *register);
        }
    }
}
