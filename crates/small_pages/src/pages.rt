ghost use Rattle.std.specs.Prelude.{◌≡◌, ◌+◌, ◌*◌, ◌/◌, ◌<◌, ◌≤◌, true, false, Ok, Err, MatchResult, fold, nat_le, slice_range};
ghost use Rattle.std.proofs.Common.{subst, rules};
ghost use Rattle.memory.specs.Memory.{with_right, look_answer, put_answer, see_answer, set_answer, page_answer, run_answer, after_put, after_set, after_prot1, after_protn, after_unprot};
ghost use Rattle.memory.specs.Rights.{lesser};
ghost use Rattle.memory.specs.declared.refusals.Refusal.TheVariants.{Size};
ghost use Rattle.memory.specs.declared.rights.Right.TheVariants.{All};
ghost use Rattle.small_pages.specs.Splits.{number as number_of_lem, legal_split, opened, lowest};
ghost use Rattle.small_pages.specs.Layers.{layer_meaning, below_meaning, parts_in, Least, SameSizes, Made, Unmade};
ghost use Rattle.small_pages.specs.Sizes.{small_sized, small_extent};

use super::parts::Parts;
use memory::{Denied, Host, Refusal, Rejected, Right, sizes_fit};

/// A layer over a host that makes 2, 4 or 8 pages out of each page below, with the same words at the same
/// addresses.
///
/// The layer keeps a right for each small page, and gives the page below the least of them. Where a small page
/// allows an access that the page below does not, the second view of the host below carries it out. The layer is a
/// host itself, so layers pile up.
#[derive(Drop)]
pub struct SmallPages<H> {
    pub(crate) below: H,
    pub(crate) parts: Parts,
    pub(crate) rights: [Right; 64],
}

// The sizes of a layer's small pages.
#[derive(Clone, Copy)]
struct SmallSizes {
    // How many small pages a page below makes.
    divisor: u32,
    page_count: u32,
    page_size: u32,
}

// The word at an address, whatever the page allows. Outside, where there is none, it is 0.
fn fetch<H: Host>(host: &mut H, a: u32) -> u32
    ensures answer { result ≡ (H.meaning host.old).word a }
    ensures after { H.meaning host.new ≡ H.meaning host.old }
{
    // A match, for a proof knows nothing of the host after a closure that holds it.
    match host.look(a) {
        Ok(w) => w,
        Err(_) => host.see(a).unwrap_or(0),
    }
}

// Writes the word at an address, whatever the page allows.
fn store<H: Host>(host: &mut H, a: u32, w: u32)
    ensures { H.meaning host.new ≡ after_set (H.meaning host.old) a w }
{
    if host.put(a, w).is_err() {
        let _ = host.set(a, w);
    }
}

// Raises every page to all.
fn open_all<H: Host>(host: &mut H)
    ensures { H.meaning host.new ≡ opened (H.meaning host.old) }
{
    for p in 0..host.page_count() {
        let _ = host.unprot(p, Right::All);
    }
}

// The parts for a divisor with which the small pages have legal sizes.
fn legal_parts<H: Host>(below: &H, k: u32) -> Result<Parts, Refusal>
    ensures { MatchResult result (λ parts. (number_of_lem parts ≡ k) × (legal_split (H.meaning below.now) k ≡ true)) (λ e. (e ≡ Size) × (legal_split (H.meaning below.now) k ≡ false)) }
{
    let parts = Parts::try_from(k)?;
    if sizes_fit(below.page_count() * k, below.page_size() / k) {
        Ok(parts)
    } else {
        Err(Refusal::Size)
    }
}

// The least of the rights of `count` small pages from `first` on.
fn least_of(rights: &[Right; 64], first: usize, count: usize) -> Right
    requires { first + count ≤ 64 }
    ensures { result ≡ fold lesser All (slice_range rights.now first (first + count)) }
{
    rights[first..first + count]
        .iter()
        .fold(Right::All, |least, right| least.lesser(*right))
}

impl<H: Host> SmallPages<H> {
    /// Makes `k` pages out of each page below. Raises every page below to all; every small page begins at all.
    ///
    /// Refused as `Size` for a `k` other than 2, 4 and 8, and where the small pages would have less than 16 words
    /// or be more than 64. The host then comes back as it was.
    pub fn make(mut below: H, k: u32) -> Result<SmallPages<H>, Rejected<H>>
        ensures { elim result [ Ok s ↦ Made H.meaning below k s | Err e ↦ Unmade H.meaning below k e ] }
    {
        match legal_parts(&below, k) {
            Ok(parts) => {
                open_all(&mut below);
                Ok(SmallPages {
                    below,
                    parts,
                    rights: [Right::All; 64],
                })
            }
            Err(refusal) => Err(Rejected {
                refusal,
                given: below,
            }),
        }
    }

    // The sizes of the small pages. They are those of the host below where its pages cannot be split, which no layer
    // that was made comes to.
    fn small_sizes(&self) -> SmallSizes
        ensures divisor { result.divisor ≡ parts_in H.meaning self.now }
        ensures count { result.page_count ≡ (layer_meaning H.meaning self.now).page_count }
        ensures size { result.page_size ≡ (layer_meaning H.meaning self.now).page_size }
    {
        let k = self.parts.number();
        let count_below = self.below.page_count();
        let size_below = self.below.page_size();
        let page_count = count_below * k;
        let page_size = size_below / k;
        if sizes_fit(page_count, page_size) {
            SmallSizes {
                divisor: k,
                page_count,
                page_size,
            }
        } else {
            SmallSizes {
                divisor: 1,
                page_count: count_below,
                page_size: size_below,
            }
        }
    }

    // Reads by the second view of the host below.
    fn see_below(&mut self, a: u32) -> Result<u32, Refusal>
        ensures answer { result ≡ see_answer (layer_meaning H.meaning self.old) a }
        ensures after { layer_meaning H.meaning self.new ≡ layer_meaning H.meaning self.old }
        ensures sizes { SameSizes H.meaning self.old self.new }
        ensures least { Least H.meaning self.old → Least H.meaning self.new }
    {
        self.below.see(a)
    }

    // Writes by the second view of the host below.
    fn set_below(&mut self, a: u32, w: u32) -> Result<(), Refusal>
        ensures answer { result ≡ set_answer (layer_meaning H.meaning self.old) a }
        ensures after { layer_meaning H.meaning self.new ≡ after_set (layer_meaning H.meaning self.old) a w }
        ensures sizes { SameSizes H.meaning self.old self.new }
        ensures least { Least H.meaning self.old → Least H.meaning self.new }
    {
        self.below.set(a, w)
    }

    // Writes the word at an address, whatever the page below allows.
    fn store_below(&mut self, a: u32, w: u32)
        ensures after { layer_meaning H.meaning self.new ≡ after_set (layer_meaning H.meaning self.old) a w }
        ensures sizes { SameSizes H.meaning self.old self.new }
        ensures least { Least H.meaning self.old → Least H.meaning self.new }
    {
        store(&mut self.below, a, w);
    }

    // The right of a small page.
    fn right(&self, p: u32) -> Right
        requires { p < (layer_meaning H.meaning self.now).page_count }
        ensures { result ≡ (layer_meaning H.meaning self.now).right p }
    {
        self.rights[p as usize]
    }

    // The least right of the small pages of a page below, each of which makes `k`.
    fn lowest_right(&self, page: u32, k: u32) -> Right
        requires { (page < (below_meaning H.meaning self.now).page_count) × (k ≡ parts_in H.meaning self.now) }
        ensures { result ≡ lowest (layer_meaning H.meaning self.now).right (page * parts_in H.meaning self.now) (parts_in H.meaning self.now) }
    {
        least_of(&self.rights, (page * k) as usize, k as usize)
    }

    // Gives a small page a right. The host below stays.
    fn mark(&mut self, p: u32, right: Right)
        requires { p < (layer_meaning H.meaning self.old).page_count }
        ensures after { layer_meaning H.meaning self.new ≡ with_right (layer_meaning H.meaning self.old) p right }
        ensures below { self.new.below ≡ self.old.below }
        ensures parts { self.new.parts ≡ self.old.parts }
    {
        self.rights[p as usize] = right;
    }

    // Lowers the page below a small page.
    fn lower_below(&mut self, p: u32, right: Right)
        ensures below { below_meaning H.meaning self.new ≡ after_prot1 (below_meaning H.meaning self.old) (p / parts_in H.meaning self.old) right }
        ensures parts { self.new.parts ≡ self.old.parts }
        ensures rights { self.new.rights ≡ self.old.rights }
    {
        let page = p / self.small_sizes().divisor;
        let _ = self.below.prot1(page, right);
    }

    // Raises the page below a small page to the least right of its small pages.
    fn raise_below(&mut self, p: u32)
        requires { p < (layer_meaning H.meaning self.old).page_count }
        ensures below { below_meaning H.meaning self.new ≡ after_unprot (below_meaning H.meaning self.old) (p / parts_in H.meaning self.old) (lowest (layer_meaning H.meaning self.old).right (p / parts_in H.meaning self.old * parts_in H.meaning self.old) (parts_in H.meaning self.old)) }
        ensures parts { self.new.parts ≡ self.old.parts }
        ensures rights { self.new.rights ≡ self.old.rights }
    {
        let k = self.small_sizes().divisor;
        let page = p / k;
        let least = self.lowest_right(page, k);
        let _ = self.below.unprot(page, least);
    }

    // Lowers the right of a small page, and that of the page below.
    fn lower(&mut self, p: u32, right: Right)
        requires { p < (layer_meaning H.meaning self.old).page_count }
        ensures after { layer_meaning H.meaning self.new ≡ after_prot1 (layer_meaning H.meaning self.old) p right }
        ensures sizes { SameSizes H.meaning self.old self.new }
        ensures least { Least H.meaning self.old → Least H.meaning self.new }
    {
        self.mark(p, self.right(p).lesser(right));
        self.lower_below(p, right);
    }

    // Raises the right of a small page, and the page below to the least.
    fn raise(&mut self, p: u32, right: Right)
        requires { p < (layer_meaning H.meaning self.old).page_count }
        ensures after { layer_meaning H.meaning self.new ≡ after_unprot (layer_meaning H.meaning self.old) p right }
        ensures sizes { SameSizes H.meaning self.old self.new }
        ensures least { Least H.meaning self.old → Least H.meaning self.new }
    {
        self.mark(p, self.right(p).greater(right));
        self.raise_below(p);
    }

    // Whether there are `count` small pages from `first` on.
    fn has_run(&self, first: u32, count: u32) -> bool
        ensures { result ≡ nat_le (first + count) (layer_meaning H.meaning self.now).page_count }
    {
        let pages = self.page_count();
        first <= pages && count <= pages - first
    }
}

// That the sizes stay, and the least rights below, are clauses of each call. As ghost fields of the type they would ask
// `H: Host` of every type that names a layer, and no type could then have a pile over a type parameter in a field.

impl<H: Host> Host for SmallPages<H> {
    ghost meaning = { layer_meaning H.Host.meaning };

    ghost sized = { λ h. small_sized (H.Host.meaning h.below) h.parts (H.Host.sized h.below) };

    ghost narrow = { Prim.search rules };

    ghost blank = { λ h a l. H.Host.blank h.below a (subst (λ n. n ≤ a) (small_extent (H.Host.meaning h.below) h.parts (H.Host.sized h.below) h.rights) l) };

    ghost shut = { Prim.search rules };

    fn page_size(&self) -> u32 {
        self.small_sizes().page_size
    }

    fn page_count(&self) -> u32 {
        self.small_sizes().page_count
    }

    fn look(&mut self, a: u32) -> Result<u32, Denied>
        ensures answer { result ≡ look_answer (layer_meaning H.meaning self.old) a }
        ensures after { layer_meaning H.meaning self.new ≡ layer_meaning H.meaning self.old }
        ensures sizes { SameSizes H.meaning self.old self.new }
        ensures least { Least H.meaning self.old → Least H.meaning self.new }
    {
        let page = self.page_of(a)?;
        if !self.right(page).reads() {
            return Err(Denied::Fault(page));
        }
        Ok(fetch(&mut self.below, a))
    }

    fn put(&mut self, a: u32, w: u32) -> Result<(), Denied>
        ensures answer { result ≡ put_answer (layer_meaning H.meaning self.old) a }
        ensures after { layer_meaning H.meaning self.new ≡ after_put (layer_meaning H.meaning self.old) a w }
        ensures sizes { SameSizes H.meaning self.old self.new }
        ensures least { Least H.meaning self.old → Least H.meaning self.new }
    {
        let page = self.page_of(a)?;
        if !self.right(page).writes() {
            return Err(Denied::Fault(page));
        }
        self.store_below(a, w);
        Ok(())
    }

    fn see(&mut self, a: u32) -> Result<u32, Refusal>
        ensures answer { result ≡ see_answer (layer_meaning H.meaning self.old) a }
        ensures after { layer_meaning H.meaning self.new ≡ layer_meaning H.meaning self.old }
        ensures sizes { SameSizes H.meaning self.old self.new }
        ensures least { Least H.meaning self.old → Least H.meaning self.new }
    {
        self.see_below(a)
    }

    fn set(&mut self, a: u32, w: u32) -> Result<(), Refusal>
        ensures answer { result ≡ set_answer (layer_meaning H.meaning self.old) a }
        ensures after { layer_meaning H.meaning self.new ≡ after_set (layer_meaning H.meaning self.old) a w }
        ensures sizes { SameSizes H.meaning self.old self.new }
        ensures least { Least H.meaning self.old → Least H.meaning self.new }
    {
        self.set_below(a, w)
    }

    fn prot1(&mut self, p: u32, right: Right) -> Result<(), Refusal>
        ensures answer { result ≡ page_answer (layer_meaning H.meaning self.old) p }
        ensures after { layer_meaning H.meaning self.new ≡ after_prot1 (layer_meaning H.meaning self.old) p right }
        ensures sizes { SameSizes H.meaning self.old self.new }
        ensures least { Least H.meaning self.old → Least H.meaning self.new }
    {
        self.check_page(p)?;
        self.lower(p, right);
        Ok(())
    }

    // Not the trait's body, whose proof gives neither `sizes` nor `least`.
    fn protn(&mut self, first: u32, count: u32, right: Right) -> Result<(), Refusal>
        ensures answer { result ≡ run_answer (layer_meaning H.meaning self.old) first count }
        ensures after { layer_meaning H.meaning self.new ≡ after_protn (layer_meaning H.meaning self.old) first count right }
        ensures sizes { SameSizes H.meaning self.old self.new }
        ensures least { Least H.meaning self.old → Least H.meaning self.new }
    {
        if count == 0 {
            return Ok(());
        }
        if !self.has_run(first, count) {
            return Err(Refusal::Outside);
        }
        for p in first..first + count {
            self.lower(p, right);
        }
        Ok(())
    }

    fn unprot(&mut self, p: u32, right: Right) -> Result<(), Refusal>
        ensures answer { result ≡ page_answer (layer_meaning H.meaning self.old) p }
        ensures after { layer_meaning H.meaning self.new ≡ after_unprot (layer_meaning H.meaning self.old) p right }
        ensures sizes { SameSizes H.meaning self.old self.new }
        ensures least { Least H.meaning self.old → Least H.meaning self.new }
    {
        self.check_page(p)?;
        self.raise(p, right);
        Ok(())
    }
}
