ghost use Rattle.std.specs.Prelude.{◌≡◌};
ghost use Rattle.small_pages.specs.Calls.{after_call, after_calls};
ghost use Rattle.small_pages.specs.Layers.{layer_meaning, Least, SameSizes};

use super::pages::SmallPages;
use memory::{Host, Right};

/// A call of a host, with what it is given.
#[derive(Clone, Copy)]
pub enum HostCall {
    Look(u32),
    Put(u32, u32),
    See(u32),
    Set(u32, u32),
    Prot1(u32, Right),
    Protn(u32, u32, Right),
    Unprot(u32, Right),
}

impl<H: Host> SmallPages<H> {
    // Carries out a call, whatever it answers.
    fn carry_out_one(&mut self, call: HostCall)
        ensures after { layer_meaning H.meaning self.new ≡ after_call (layer_meaning H.meaning self.old) call }
        ensures sizes { SameSizes H.meaning self.old self.new }
        ensures least { Least H.meaning self.old → Least H.meaning self.new }
    {
        match call {
            HostCall::Look(a) => {
                let _ = self.look(a);
            }
            HostCall::Put(a, w) => {
                let _ = self.put(a, w);
            }
            HostCall::See(a) => {
                let _ = self.see(a);
            }
            HostCall::Set(a, w) => {
                let _ = self.set(a, w);
            }
            HostCall::Prot1(p, right) => {
                let _ = self.prot1(p, right);
            }
            HostCall::Protn(first, count, right) => {
                let _ = self.protn(first, count, right);
            }
            HostCall::Unprot(p, right) => {
                let _ = self.unprot(p, right);
            }
        }
    }

    /// Carries out calls in order, whatever they answer. After any calls of a layer that was made, each page below
    /// has the least right of its small pages.
    pub fn carry_out(&mut self, calls: &[HostCall])
        ensures after { layer_meaning H.meaning self.new ≡ after_calls (layer_meaning H.meaning self.old) calls.now }
        ensures sizes { SameSizes H.meaning self.old self.new }
        ensures least { Least H.meaning self.old → Least H.meaning self.new }
    {
        for call in calls {
            self.carry_out_one(*call);
        }
    }
}
