// One step of a walk, down to lower elements or up to cells, and the layers of what is reached.
ghost use Rattle.std.specs.Prelude.{◌≡◌, false, cond, [], ◌∷◌, ◌+◌, ◌<◌, ◌≤◌, eqb, length, take};
ghost use Rattle.mesh.specs.Meet.{Under};
ghost use Rattle.vocabulary.specs.Bytes.{byte_at};
ghost use Rattle.vocabulary.specs.Lists.{All, Zeros};
ghost use Rattle.layout.specs.Limits.{element_places, most_elements, most_steps, stencil_bytes};
ghost use Rattle.mesh.specs.Mesh.{top};
ghost use Rattle.mesh.specs.Accepted.{Accepted, Cell};
ghost use Rattle.mesh.specs.Walks.{bad10};
ghost use Rattle.walk_frontier.specs.Visits.{Frontier, Toward, Added};
ghost use Rattle.walk_incidence.specs.Links.{Inverted, Roomed, seen};
ghost use Rattle.walk_incidence.specs.Sizes.{Sized};
ghost use Rattle.walk_steps.specs.Walking.{Grounded, Ready, AllCells, Sided, Lower, stepped, alike, through_one, mark_at, starts_among, or_among, among, Noted};
ghost use Rattle.walk_steps.specs.Walking.{WalkDone, Within, Widened, Departed, Arrived};

use layout::inner::copy_items;
use layout::limits::ELEMENT_PLACES;
use layout::{byte_at, get_or, put_at};
use mesh::inner::below_of;
use walk_frontier::inner::{step_down, step_up, visit_all};
use walk_incidence::inner::{IncidenceRef, MeshSizes, sizes_of};

// Whether the j-th odd place is like the first.
fn is_alike(stencil: &[u8], j: usize) -> bool
    requires { j ≤ most_steps }
    ensures { result ≡ alike stencil.now j }
{
    byte_at(stencil, 2 * j + 1) == byte_at(stencil, 1)
}

// Whether the stencil goes through one dimension: its odd places are alike.
fn through_one(stencil: &[u8]) -> bool
    requires { length stencil.now ≤ stencil_bytes }
    ensures { result ≡ through_one stencil.now }
{
    for j in 0..stencil.len() / 2 {
        if !is_alike(stencil, j) {
            return false;
        }
    }
    true
}

// What walks go by: a mesh and its sizes, a stencil, the chains of the cells turned round, and whether the stencil goes through one dimension.
#[derive(Clone, Copy)]
pub struct Walker<'a> {
    pub mesh: &'a [u8],
    pub sizes: MeshSizes,
    pub stencil: &'a [u8],
    pub incidence: IncidenceRef<'a>,
    pub single: bool,
}

// The arrays that walks are made in: the marks of the elements met, where the walks so far end, what the next step finds, and the layers of the cells met.
#[derive(Drop)]
pub struct Space {
    pub marks: [u16; ELEMENT_PLACES],
    pub from: [u16; ELEMENT_PLACES],
    pub found: [u16; ELEMENT_PLACES],
    pub layers: [u16; ELEMENT_PLACES],
}

// Where walks end: how many elements those are; the bounds of all cells met on the way, from `low` up to but without `high`; and how many elements
// were met in all, if the stencil goes through one dimension.
#[derive(Clone, Copy)]
pub struct Ends {
    pub count: usize,
    pub low: usize,
    pub high: usize,
    pub met: usize,
}

// Gives y the layer k, unless it has one.
fn note(k: u16, y: usize, layers: &mut [u16])
    requires { (k < 65535) × (y < length layers.old) }
    ensures { Noted k layers.old layers.new (eqb y) }
{
    if get_or(layers, y, 0) == 0 {
        put_at(layers, y, k + 1);
    }
}

// Gives the numbers of a list the layer k, unless they have one.
fn note_all(k: u16, list: &[u16], layers: &mut [u16])
    requires { (k < 65535) × All (λ y. y < length layers.old) list.now }
    ensures { Noted k layers.old layers.new (among list.now) }
{
    for &y in list {
        note(k, y as usize, layers);
    }
}

// The mark of the step after k steps: one for the whole walk, or one a step.
// It chooses a number by what the stencil is, and no step: a closure would say the same in more words.
fn mark_at(single: bool, mark: usize, k: usize) -> usize
    requires { (mark ≤ 60000) × (k ≤ most_steps) }
    ensures { (result ≡ mark_at single mark k) × (result ≤ 60008) }
{
    if single { mark } else { mark + k }
}

// How many of the `count` elements found stay gathered: all, where one mark serves the whole walk.
fn kept(single: bool, count: usize) -> usize
    ensures { result ≡ cond single count 0 }
{
    if single { count } else { 0 }
}

// The bounds that hold cell y as well.
fn widened(w: Ends, y: usize) -> Ends
    requires { y < 65536 }
    ensures { (result.count ≡ w.count) × (result.met ≡ w.met) × Widened w.low w.high result.low result.high (y ∷ []) }
{
    Ends {
        low: w.low.min(y),
        high: w.high.max(y + 1),
        ..w
    }
}

// The bounds that hold the numbers of a list as well.
pub fn widen(list: &[u16], w: Ends) -> Ends
    ensures { (result.count ≡ w.count) × (result.met ≡ w.met) × Widened w.low w.high result.low result.high list.now }
{
    let mut r = w;
    for &y in list {
        r = widened(r, y as usize);
    }
    r
}

// Where one mark serves the whole walk, the cells that it sets out from are gathered before its first step.
// The flag is the walker's own, found from its stencil: no caller could give this step instead.
fn set_out(single: bool, mark: u16, marks: &mut [u16], found: &mut [u16], from: &[u16]) -> usize
    requires { All (λ y. (1 ≤ y) × (y ≤ most_elements)) from.now × Under mark marks.old × (length found.old ≡ element_places) }
    ensures { Frontier mark marks.new found.new result × Toward found.new result [] (starts_among single from.now) }
{
    if !single {
        return 0;
    }
    visit_all(from, mark, marks, found)
}

// Before the first step the cells stand in `from`, bear the layer 0, and are all that was met.
fn depart(n: usize, met: usize, layers: &mut [u16], from: &[u16]) -> Ends
    requires { (n < 65536) × All (λ y. y < length layers.old) from.now }
    ensures { Departed n from.now met layers.old layers.new result.count result.low result.high result.met }
{
    note_all(0, from, layers);
    widen(
        from,
        Ends {
            count: from.len(),
            low: n + 1,
            high: 0,
            met,
        },
    )
}

// After step k, by which `found` are found in all, the new ones stand in `from`; cells bear the layer k unless they have one, and widen the bounds. All stay
// gathered where one mark serves the whole walk.
// By the parity of k: `walk` calls itself with k - 1, and has nothing else to choose by. Out of line, as `step`.
#[inline(never)]
fn arrive(
    k: usize,
    single: bool,
    w: Ends,
    from: &mut [u16],
    layers: &mut [u16],
    found: &[u16],
) -> Ends
    requires { (k ≤ most_steps) × (w.met ≤ length found.now) × (length found.now ≤ length from.old) × All (λ y. y < length layers.old) found.now }
    ensures { Arrived k single w.met found.now from.old from.new layers.old layers.new w.low w.high result.count
        result.low result.high result.met }
{
    let new = &found[w.met..];
    let count = new.len();
    copy_items(&mut from[..count], new);
    let ends = Ends {
        count,
        met: kept(single, found.len()),
        ..w
    };
    if k % 2 == 1 {
        return ends;
    }
    note_all(k as u16, new, layers);
    widen(new, ends)
}

impl<'a> Walker<'a> {
    // A walker over an accepted mesh, by its chains turned round: over lists of any length it is `Grounded`, over whole arrays `Ready`.
    pub fn new(mesh: &'a [u8], stencil: &'a [u8], incidence: IncidenceRef<'a>) -> Walker<'a>
        requires { Inverted mesh.now (seen incidence) × (bad10 (top mesh.now) stencil.now ≡ false) }
        ensures { Grounded result × (result.mesh ≡ mesh.entry) × (result.stencil ≡ stencil.entry) × (result.incidence ≡ incidence.entry)
            × (Roomed (seen incidence.entry) → Ready result) }
    {
        Walker {
            mesh,
            sizes: sizes_of(mesh),
            stencil,
            incidence,
            single: through_one(stencil),
        }
    }

    // Down from the cells in `from` to the elements of dimension a.
    pub fn walk_down(
        self,
        a: usize,
        mark: u16,
        marks: &mut [u16],
        found: &mut [u16],
        base: usize,
        from: &[u16],
    ) -> usize
        requires { Accepted self.mesh.now × Sized self.mesh.now self.sizes × (a < top self.mesh.now) × All (Cell self.mesh.now) from.now
            × Frontier mark marks.old found.old base × (base ≤ most_elements) }
        ensures { Added mark marks.new found.old base found.new result
            (or_among found.old base (stepped self.entry.mesh.now a from.now)) }
    {
        let lo = below_of(self.mesh, a);
        let hi = below_of(self.mesh, a + 1);
        step_down(
            self.mesh,
            self.sizes,
            from,
            from.len(),
            lo,
            hi,
            mark,
            marks,
            found,
            base,
        )
    }

    // Up from the lower elements in `from` to their cells.
    pub fn walk_up(
        self,
        mark: u16,
        marks: &mut [u16],
        found: &mut [u16],
        base: usize,
        from: &[u16],
    ) -> usize
        requires { Grounded self × All (Lower self.mesh.now) from.now × Frontier mark marks.old found.old base × (base ≤ most_elements) }
        ensures { Added mark marks.new found.old base found.new result
            (or_among found.old base (stepped self.entry.mesh.now (top self.entry.mesh.now) from.now)) }
    {
        step_up(self.incidence, from, from.len(), mark, marks, found, base)
    }

    // Step k of a walk: down where k is odd, and up where it is even. What it finds comes after the first `base` numbers of `found`.
    // Out of line, so that `walk`, which calls itself once a step, has little on the stack.
    #[inline(never)]
    fn step(
        self,
        k: usize,
        mark: u16,
        marks: &mut [u16],
        found: &mut [u16],
        base: usize,
        from: &[u16],
    ) -> usize
        requires { Grounded self × (k < length self.stencil.now) × Sided self.mesh.now k from.now × Frontier mark marks.old found.old base × (base ≤ most_elements) }
        ensures { Added mark marks.new found.old base found.new result
            (or_among found.old base (stepped self.entry.mesh.now (byte_at self.entry.stencil.now k) from.now)) }
    {
        if k % 2 == 1 {
            let a = byte_at(self.stencil, k) as usize;
            return self.walk_down(a, mark, marks, found, base, from);
        }
        self.walk_up(mark, marks, found, base, from)
    }

    // Where the walks of k steps from the first s cells of `from` end: a walk of k - 1 steps, and one step more. Each cell met bears its layer. Where the
    // stencil goes through one dimension, no step goes on from what an earlier one has met: it would find nothing new.
    pub fn walk(self, s: usize, k: usize, mark: usize, space: &mut Space) -> Ends
        requires { Grounded self × AllCells self.mesh.now space.old.from s × (k < length self.stencil.now) × (mark ≤ 60000) × Under mark space.old.marks
            × Zeros element_places space.old.layers }
        ensures { WalkDone self.entry.mesh.now self.entry.stencil.now self.entry.single (take s space.old.from) k mark space.new result.count result.met
            × Within self.entry.mesh.now space.new.layers result.low result.high }
    {
        if k == 0 {
            let met = set_out(
                self.single,
                mark as u16,
                &mut space.marks,
                &mut space.found,
                &space.from[..s],
            );
            return depart(
                self.sizes.elements,
                met,
                &mut space.layers,
                &space.from[..s],
            );
        }
        let w = self.walk(s, k - 1, mark, space);
        let mark = mark_at(self.single, mark, k - 1) as u16;
        let n = self.step(
            k,
            mark,
            &mut space.marks,
            &mut space.found,
            w.met,
            &space.from[..w.count],
        );
        arrive(
            k,
            self.single,
            w,
            &mut space.from,
            &mut space.layers,
            &space.found[..n],
        )
    }
}
