ghost use Rattle.std.specs.Prelude.{◌≡◌, ◌<◌};

/// A fault that was handed out. It must be given to RESOLVE: a program that drops one is not proved. For only a fault of no
/// mutator may be dropped, and TAKE says that the fault it hands out is of one of the four.
pub struct Fault {
    pub(crate) mutator: u32,
    pub(crate) page: u32,
}

impl Drop for Fault {
    fn drop(self)
        requires { 3 < self.mutator }
    {
        let Fault {
            mutator: _,
            page: _,
        } = self;
    }
}

impl Fault {
    /// The page that the fault is on.
    pub fn page(&self) -> u32
        ensures { result ≡ self.now.page }
    {
        self.page
    }

    pub(crate) fn parts(self) -> (u32, u32)
        ensures { result ≡ (self.mutator, self.page) }
    {
        let Fault { mutator, page } = self;
        (mutator, page)
    }
}
